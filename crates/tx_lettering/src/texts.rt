//! Texts that are read whole begin and end: definitions, lists of tokens, and what \message and its kin absorb (TeX: The Program,
//! sections 1218, 1226, 1279 and 1288).
ghost use Rattle.std.specs.Prelude.{◌≡◌, ◌++◌, ◌||◌, Some, IfOk, OnOk};
ghost use Rattle.tx_node.specs.Items.{shared};
ghost use Rattle.tx_lettering.specs.Texts as spec;
ghost use Rattle.tx_state.specs.Ended.{adding};
ghost use Rattle.tx_state.specs.Outcomes.{leaves};
ghost use Rattle.tx_state.specs.Meanings.{IsStepped, state_of};
ghost use Rattle.tx_state.specs.Texts.{definition_text, is_global as global_kind};

use crate::hyphens::{end_learning, is_late, learn_exceptions, learn_patterns};
use crate::letters::with_letters;
use std::alloc::{AllocError, Global};
use std::mem;
use tx_assign::{Assignment, Change, with_text};
use tx_bytes::Bytes;
use tx_char::ControlName;
use tx_command::Prefixes;
use tx_convert::text_of;
use tx_eqtb::{Entry, Eqtb};
use tx_event::Event;
use tx_expand::escape_of;
use tx_node::{Node, Shared};
use tx_pending::Pending;
use tx_prim::{CharacterCode, DefinitionKind, Primitive, TextUse};
use tx_seen::{Meaning, Place, TexError};
use tx_state::{OpenText, Phase, State, add, carry_out_assignment, fail, is_global};
use tx_text::{DefinitionScan, TextScan};
use tx_toklist::{TokList, Toks};
use tx_word::Words;

/// This text is taken from now on.
fn open_text(open: &mut Option<OpenText>, text: OpenText)
    ensures { open.new ≡ Some text }
{
    // (what stood there is dropped by a call)
    drop(mem::replace(open, Some(text)));
}

/// The list of tokens that is to stand at this place begins.
pub fn begin_list(alloc: Global, s: &mut State, place: Place) -> Event
    requires { s.old.phase ≡ Phase.Running }
    ensures { IsStepped (leaves (spec.in_list (state_of s.old) place)) s.old result s.new }
{
    open_text(&mut s.text, OpenText::list(alloc, place));
    Event::Went
}

/// \def or its kin and the name that it defines: its text begins.
pub fn define_macro(alloc: Global, s: &mut State, defined: Place, kind: DefinitionKind) -> Event
    requires { s.old.phase ≡ Phase.Running }
    ensures { IsStepped (leaves (record (state_of s.old) { text = Some (definition_text defined kind) })) s.old result s.new }
{
    open_text(&mut s.text, OpenText::definition(alloc, defined, kind));
    Event::Went
}

/// \message or its kin: its text begins, unless it comes too late.
pub fn begin_text(alloc: Global, s: &mut State, purpose: TextUse) -> Event
    requires { s.old.phase ≡ Phase.Running }
    ensures { IsStepped (spec.beginning_text (state_of s.old) purpose) s.old result s.new }
{
    if is_late(&s.hyphenation, purpose) {
        return fail(s, TexError::BadHyphenation);
    }
    open_text(&mut s.text, OpenText::absorbed(alloc, purpose));
    Event::Went
}

/// Whether a definition is global, by its prefixes or its kind.
fn defines_globally(prefixes: Prefixes, kind: DefinitionKind) -> bool
    ensures { result ≡ (prefixes.global || global_kind kind) }
{
    prefixes.global || is_global(kind)
}

/// The place of a definition that is whole means its macro, by the prefixes before it. Err is want of memory.
fn definition_of(
    alloc: Global,
    prefixes: Prefixes,
    defined: Place,
    scan: DefinitionScan,
) -> Result<Assignment, AllocError>
    ensures { IfOk result (λ assignment. assignment ≡ record { place = defined; change = Change.Set (Entry.Means (Meaning.Macro (spec.macro_of prefixes scan))) }) }
{
    let made = scan.into_macro(alloc, prefixes.long, prefixes.outer)?;
    Ok(Assignment {
        place: defined,
        change: Change::Set(Entry::Means(Meaning::Macro(made))),
    })
}

/// Puts the line of a message into the transcript. Its only error is want of memory.
#[tactic(auto, unfolding(crate::specs::Texts::message))]
fn report_message(said: &mut Bytes, text: &[u8]) -> Result<(), AllocError>
    ensures { OnOk result (said.new ≡ said.old ++ spec.message text.now) }
{
    said.append(b"message ")?;
    said.append(text)?;
    said.append(b"\n")
}

/// Prints the text of \message. Err is want of memory.
fn print_message(
    alloc: Global,
    table: &Eqtb,
    words: &Words,
    said: &mut Bytes,
    tokens: &Toks,
) -> Result<Event, AllocError>
    ensures { (s : State) → s.phase ≡ Phase.Running → IfOk result (λ event. IsStepped (spec.printing (state_of (record s { table = table.now; words = words.now; said = said.old })) tokens.now) (record s { table = table.now; words = words.now; said = said.old }) event (record s { table = table.now; words = words.now; said = said.new })) }
{
    let text = text_of(
        alloc,
        tokens.as_slice(),
        escape_of(table),
        table.categories(),
        words.fonts(),
    )?;
    report_message(said, text.as_slice())?;
    Ok(Event::Went)
}

/// Appends a \special with these bytes. Err is want of memory.
fn add_special(alloc: Global, s: &mut State, tokens: &Toks) -> Result<Event, AllocError>
    requires { s.old.phase ≡ Phase.Running }
    ensures { IfOk result (λ event. IsStepped (spec.marking (state_of s.old) tokens.now) s.old event s.new) }
{
    let text = text_of(
        alloc,
        tokens.as_slice(),
        escape_of(&s.table),
        s.table.categories(),
        s.words.fonts(),
    )?;
    let node = Node::from_shared(alloc, Shared::Special(text))?;
    add(s, node)
}

/// Appends a mark with these tokens. Err is want of memory.
fn add_mark(alloc: Global, s: &mut State, tokens: Toks) -> Result<Event, AllocError>
    requires { s.old.phase ≡ Phase.Running }
    ensures { IfOk result (λ event. IsStepped (adding (state_of s.old) (shared (Shared.Mark tokens))) s.old event s.new) }
{
    let tokens = TokList::from_toks(alloc, tokens)?;
    let node = Node::from_shared(alloc, Shared::Mark(tokens))?;
    add(s, node)
}

/// The text of \uppercase or \lowercase is read next, with the letters that these codes tell. Err is want of memory.
fn change_letters(
    alloc: Global,
    table: &Eqtb,
    input: &mut Pending,
    kind: CharacterCode,
    tokens: Toks,
) -> Result<Event, AllocError>
    ensures { (s : State) → s.phase ≡ Phase.Running → IfOk result (λ event. IsStepped (spec.lettering (state_of (record s { table = table.now; input = input.old })) kind tokens) (record s { table = table.now; input = input.old }) event (record s { table = table.now; input = input.new })) }
{
    let changed = with_letters(alloc, table, kind, tokens)?;
    input.push_list(TokList::from_toks(alloc, changed)?, false)?;
    Ok(Event::Went)
}

/// What becomes of a text in braces that is whole. Err is want of memory.
fn use_text(
    alloc: Global,
    s: &mut State,
    purpose: TextUse,
    scan: TextScan,
) -> Result<Event, AllocError>
    requires { s.old.phase ≡ Phase.Running }
    ensures { IfOk result (λ event. IsStepped (spec.using_text (state_of s.old) purpose scan.tokens) s.old event s.new) }
{
    let tokens = scan.into_tokens();
    match purpose {
        TextUse::Message => print_message(alloc, &s.table, &s.words, &mut s.said, &tokens),
        TextUse::ErrorMessage => Ok(fail(s, TexError::ErrorMessage)),
        TextUse::UpperCase => change_letters(
            alloc,
            &s.table,
            &mut s.input,
            CharacterCode::UpperCase,
            tokens,
        ),
        TextUse::LowerCase => change_letters(
            alloc,
            &s.table,
            &mut s.input,
            CharacterCode::LowerCase,
            tokens,
        ),
        TextUse::Special => add_special(alloc, s, &tokens),
        TextUse::Patterns => {
            let learned = learn_patterns(alloc, &mut s.hyphenation, &s.table, &tokens)?;
            end_learning(s, learned)
        }
        TextUse::Hyphenation => {
            let learned = learn_exceptions(alloc, &mut s.hyphenation, &s.table, &tokens)?;
            end_learning(s, learned)
        }
        TextUse::Mark => add_mark(alloc, s, tokens),
    }
}

/// What becomes of the text that is whole. Err is want of memory; the event may end the run by an error, as `ending_text` says.
pub fn end_text(alloc: Global, s: &mut State) -> Result<Event, AllocError>
    requires { s.old.phase ≡ Phase.Running }
    ensures { IfOk result (λ event. IsStepped (spec.ending_text (state_of s.old) s.old.text) s.old event s.new) }
{
    match mem::replace(&mut s.text, None) {
        None => Ok(Event::Went),
        Some(OpenText::Definition(defined, kind, scan)) => {
            let prefixes = s.scan.prefixes();
            let assignment = definition_of(alloc, prefixes, defined, scan)?;
            carry_out_assignment(s, assignment, defines_globally(prefixes, kind))
        }
        Some(OpenText::Absorbed(purpose, scan)) => use_text(alloc, s, purpose, scan),
        Some(OpenText::List(place, scan)) => {
            let global = s.scan.prefixes().global;
            let assignment = with_text(alloc, place, scan.into_tokens())?;
            carry_out_assignment(s, assignment, global)
        }
    }
}

/// The name that \csname has made means \relax from now on, locally (TeX: The Program, section 372). Err is want of memory.
#[inline(never)]
pub fn relax_name(s: &mut State, name: ControlName) -> Result<Event, AllocError>
    requires { s.old.phase ≡ Phase.Running }
    ensures { IfOk result (λ event. IsStepped (leaves (spec.relaxing (state_of s.old) name)) s.old event s.new) }
{
    s.table.assign(
        Place::Name(name),
        Entry::Means(Meaning::Command(Primitive::Relax)),
    )?;
    Ok(Event::Went)
}
