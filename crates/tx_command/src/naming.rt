//! Whether the name of a file is being read behind \font (TeX: The Program, sections 526 and 1257).
ghost use Rattle.std.specs.Prelude.{◌≡◌};
ghost use Rattle.tx_command.specs.Naming as spec;

use tx_seen::{Item, Meaning, Seen};

/// What the next item behind \font and the name that it defines is a part of.
#[derive(Clone, Copy)]
pub(crate) enum NamePart {
    /// An optional `=`, or a space before it.
    Equals,
    /// A space before the name, or the name.
    Blank,
    /// The name.
    Name,
    /// What stands behind the name, or what is wrong.
    Over,
}

/// Whether a token is a character of a file's name: one that is no blank.
fn is_named(token: &Seen) -> bool
    ensures { result ≡ spec.is_named token.now }
{
    match &token.meaning {
        Meaning::Character(code, _) => *code != b' ',
        // of all others alike
        _ => false,
    }
}

impl NamePart {
    /// Whether it is the name.
    pub(crate) fn is_name(self) -> bool
        ensures { result ≡ spec.is_name self }
    {
        matches!(self, NamePart::Blank | NamePart::Name)
    }
}

/// Behind a token of the name.
fn behind_name(token: &Seen) -> NamePart
    ensures { result ≡ spec.behind_name token.now }
{
    if token.is_undefined() || token.is_space() || !is_named(token) {
        NamePart::Over
    } else {
        NamePart::Name
    }
}

/// Behind a token where the name may begin.
#[inline(never)]
fn behind_blank(token: &Seen) -> NamePart
    ensures { result ≡ spec.behind_blank token.now }
{
    if token.is_space() {
        NamePart::Blank
    } else {
        behind_name(token)
    }
}

/// Behind a token where an `=` may stand.
#[inline(never)]
fn behind_equals(token: &Seen) -> NamePart
    ensures { result ≡ spec.behind_equals token.now }
{
    if token.is_undefined() {
        NamePart::Over
    } else if token.is_space() {
        NamePart::Equals
    } else if token.is_other(b'=') {
        NamePart::Blank
    } else {
        behind_blank(token)
    }
}

/// Behind one more item.
#[inline(always)]
pub(crate) fn behind(part: NamePart, item: &Item) -> NamePart
    ensures { result ≡ spec.behind part item.now }
{
    match item {
        Item::Gave(_) => NamePart::Over,
        Item::Took(token) => match part {
            NamePart::Equals => behind_equals(token),
            NamePart::Blank => behind_blank(token),
            NamePart::Name => behind_name(token),
            NamePart::Over => NamePart::Over,
        },
    }
}
