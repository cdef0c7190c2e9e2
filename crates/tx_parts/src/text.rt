//! Texts that are being taken: definitions, lists of tokens, and what \message and its kin absorb (TeX: The Program, sections 473
//! to 482).
ghost use Rattle.std.specs.Prelude.{◌≡◌, IfOk, OnOk};
ghost use Rattle.tx_parts.specs.Texts as spec;
ghost use Rattle.tx_parts.specs.Texts.{IsTextFed};

use crate::parts::OpenText;
use std::alloc::{AllocError, Global};
use tx_char::Token;
use tx_prim::{DefinitionKind, TextUse};
use tx_seen::{Fed, Place, Seen, Want};
use tx_text::{DefinitionScan, TextScan};
use tx_toklist::Toks;

/// Whether the body of a definition is expanded.
fn expands_body(kind: DefinitionKind) -> bool
    ensures { result ≡ spec.expands_body kind }
{
    match kind {
        DefinitionKind::Plain | DefinitionKind::Global => false,
        DefinitionKind::Expanded | DefinitionKind::GlobalExpanded => true,
    }
}

/// Whether a definition is global by its command.
pub fn is_global(kind: DefinitionKind) -> bool
    ensures { result ≡ spec.is_global kind }
{
    match kind {
        DefinitionKind::Plain | DefinitionKind::Expanded => false,
        DefinitionKind::Global | DefinitionKind::GlobalExpanded => true,
    }
}

/// Whether a text is expanded.
fn expands_text(purpose: TextUse) -> bool
    ensures { result ≡ spec.expands_text purpose }
{
    match purpose {
        TextUse::Message | TextUse::ErrorMessage | TextUse::Special => true,
        TextUse::Patterns | TextUse::Hyphenation | TextUse::Mark => true,
        TextUse::UpperCase | TextUse::LowerCase => false,
    }
}

/// Whether what \the gives is put into a text as it stands, if the text is expanded.
fn keeps_the(purpose: TextUse) -> bool
    ensures { result ≡ spec.keeps_the purpose }
{
    match purpose {
        TextUse::Message | TextUse::ErrorMessage | TextUse::Special => true,
        TextUse::UpperCase | TextUse::LowerCase | TextUse::Mark => true,
        TextUse::Patterns | TextUse::Hyphenation => false,
    }
}

impl OpenText {
    /// The parameter text and the body of the macro that this place is to mean; nothing is taken. Takes no memory.
    pub fn definition(alloc: Global, defined: Place, kind: DefinitionKind) -> OpenText
        ensures { result ≡ spec.definition_text defined kind }
    {
        OpenText::Definition(
            defined,
            kind,
            DefinitionScan::new(alloc, expands_body(kind)),
        )
    }

    /// A text in braces of which nothing is taken. Takes no memory.
    pub fn absorbed(alloc: Global, purpose: TextUse) -> OpenText
        ensures { result ≡ spec.absorbed_text purpose }
    {
        OpenText::Absorbed(purpose, TextScan::new(alloc, expands_text(purpose)))
    }

    /// The list of tokens that is to stand at this place; its begin-group token is taken. Takes no memory.
    pub fn list(alloc: Global, place: Place) -> OpenText
        ensures { result ≡ spec.list_text place }
    {
        OpenText::List(place, TextScan::begun(alloc))
    }

    /// How the next token is wanted.
    pub fn want(&self) -> Want
        ensures { result ≡ spec.text_want self.now }
    {
        match self {
            OpenText::Definition(_, _, scan) => scan.want(),
            OpenText::Absorbed(_, scan) => scan.want(),
            OpenText::List(_, scan) => scan.want(),
        }
    }

    /// Whether what \the gives is put in as it stands.
    pub fn takes_the(&self) -> bool
        ensures { result ≡ spec.text_takes_the self.now }
    {
        match self {
            OpenText::Definition(_, _, scan) => scan.takes_the(),
            OpenText::Absorbed(purpose, scan) => keeps_the(*purpose) && scan.takes_the(),
            OpenText::List(_, scan) => scan.takes_the(),
        }
    }

    /// Takes one more token. Its only further error is want of memory.
    pub fn feed(&mut self, alloc: Global, seen: Seen) -> Result<Fed<()>, AllocError>
        ensures { IfOk result (λ fed. IsTextFed (spec.with_token self.old seen) fed self.new) }
    {
        match self {
            OpenText::Definition(_, _, scan) => scan.feed(alloc, seen),
            OpenText::Absorbed(_, scan) => scan.feed(seen),
            OpenText::List(_, scan) => scan.feed(seen),
        }
    }

    /// A token that is no brace, and stands for no #, joins the text, if that is within its braces; answers whether it did. Else
    /// nothing changes. Its only error is want of memory.
    #[inline(always)]
    pub fn join(&mut self, token: Token) -> Result<bool, AllocError>
        ensures { IfOk result (λ joined. spec.HasJoined self.old token joined self.new) }
    {
        match self {
            OpenText::Definition(_, _, scan) => scan.join(token),
            OpenText::Absorbed(_, scan) => scan.join(token),
            OpenText::List(_, scan) => scan.join(token),
        }
    }

    /// Puts tokens in that \the gives, none of which is looked at. Its only error is want of memory.
    pub fn put(&mut self, tokens: &mut Toks) -> Result<(), AllocError>
        ensures { OnOk result (self.new ≡ spec.with_given self.old tokens.old) }
    {
        match self {
            OpenText::Definition(_, _, scan) => scan.put(tokens),
            OpenText::Absorbed(_, scan) => scan.put(tokens),
            OpenText::List(_, scan) => scan.put(tokens),
        }
    }
}
