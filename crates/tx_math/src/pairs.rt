//! Pairs of characters, and what their fonts say of them (TeX: The Program, section 752).
ghost use Rattle.std.specs.Prelude.{◌≡◌, ◌≤◌};
ghost use Rattle.tx_mlist.specs.Noads.{math_of, part_of};
ghost use Rattle.tx_math.specs.Composing as spec;
ghost use Rattle.tx_math.specs.Converting.{entries_in, entry_of};

use crate::entry::Entry;
use crate::kinds::may_follow;
use tx_list::Stack;
use tx_mlist::{Field, MathCharacter, Noad};
use tx_tfm::{Fonts, Word};

/// The character that a part is.
fn part_letter(part: &Field) -> Option<MathCharacter>
    ensures { result ≡ spec.part_letter (part_of part.now) }
{
    match part {
        Field::Character(character) => Some(*character),
        Field::Empty | Field::Packed(_, _) | Field::Formula(_) => None,
    }
}

/// The character that the nucleus of a noad is.
fn noad_letter(noad: &Noad) -> Option<MathCharacter>
    ensures { result ≡ spec.item_letter (math_of noad.now) }
{
    match noad {
        Noad::Atom(atom) => part_letter(&atom.nucleus),
        Noad::Fraction(_) | Noad::Choice(_) | Noad::Plain(_) | Noad::Node(_) => None,
    }
}

/// The same of a noad without scripts.
fn lone_letter(noad: &Noad) -> Option<MathCharacter>
    ensures { result ≡ spec.lone_letter (math_of noad.now) }
{
    match noad {
        Noad::Atom(atom) => {
            if atom.superscript.is_empty() && atom.subscript.is_empty() {
                part_letter(&atom.nucleus)
            } else {
                None
            }
        }
        Noad::Fraction(_) | Noad::Choice(_) | Noad::Plain(_) | Noad::Node(_) => None,
    }
}

/// The character of an entry that may begin a pair.
fn first_letter(entry: &Entry) -> Option<MathCharacter>
    ensures { result ≡ spec.first_letter (entry_of entry.now) }
{
    if entry.kind.is_ord() && !entry.joined {
        lone_letter(&entry.noad)
    } else {
        None
    }
}

/// The character of an entry that may end a pair.
fn second_letter(entry: &Entry) -> Option<MathCharacter>
    ensures { result ≡ spec.second_letter (entry_of entry.now) }
{
    if may_follow(entry.kind) && !entry.joined {
        noad_letter(&entry.noad)
    } else {
        None
    }
}

/// The pair of two characters of one family.
fn in_one_family(a: MathCharacter, b: MathCharacter) -> Option<(MathCharacter, MathCharacter)>
    ensures { result ≡ spec.in_one_family a b }
{
    if a.family == b.family {
        Some((a, b))
    } else {
        None
    }
}

/// The pair that an entry and the next one are, if they are one.
fn pair_of(entry: &Entry, next: &Entry) -> Option<(MathCharacter, MathCharacter)>
    ensures { result ≡ spec.pair_of (entry_of entry.now) (entry_of next.now) }
{
    let a = first_letter(entry)?;
    let b = second_letter(next)?;
    in_one_family(a, b)
}

/// The pair that an entry and the first of those behind it are, if they are one.
#[tactic(auto, using(crate::proofs::First::pair_first, crate::proofs::First::pair_alone))]
pub fn pair_in(entry: &Entry, rest: &Stack<Entry>) -> Option<(MathCharacter, MathCharacter)>
    ensures { result ≡ spec.pair_in (entry_of entry.now) (entries_in rest.now) }
{
    match rest.first() {
        Some(next) => pair_of(entry, next),
        None => None,
    }
}

/// The command of the font of a number that a pair of characters meets; None where the font lacks the first of both.
pub fn command_in(fonts: &Fonts, font: u8, left: u8, right: u8) -> Option<Word>
    ensures { result ≡ spec.command_in fonts.now font left right }
{
    if !fonts.has_character(font, left) {
        return None;
    }
    match fonts.get(font) {
        Some(named) => named.font.command(Some(left), Some(right)),
        None => None,
    }
}

/// The kern that a command of the font of a number puts in, in sp.
pub fn kern_in(fonts: &Fonts, font: u8, command: Word) -> i32
    requires { 128 ≤ command.c }
    ensures { result ≡ spec.kern_in fonts.now font command }
{
    match fonts.get(font) {
        Some(named) => named.font.kern(command) as i32,
        None => 0,
    }
}
