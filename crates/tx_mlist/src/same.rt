//! Whether two lists are equal.
ghost use Rattle.std.specs.Prelude.{◌≡◌, ◌↔◌, IsTrue};
ghost use Rattle.tx_node.specs.Nodes.{item_of};
ghost use Rattle.tx_mlist.specs.Noads.{math_of, mlist_of};

use crate::kinds::{AtomKind, Delimiter, FractionHead, MathCharacter};
use crate::noad::{Atom, Choice, Field, Fraction, InnerList, Noad};
use crate::plain::PlainNoad;
use std::slice;
use tx_list::Kept;
use tx_node::{Node, same_box, same_list};

/// Whether two kinds are equal.
fn same_kind(a: AtomKind, b: AtomKind) -> bool
    ensures { IsTrue result ↔ (a ≡ b) }
{
    a == b
}

/// Whether two characters are equal.
fn same_character(a: MathCharacter, b: MathCharacter) -> bool
    ensures { IsTrue result ↔ (a ≡ b) }
{
    a.family == b.family && a.code == b.code
}

/// Whether two delimiters are equal.
fn same_delimiter(a: Delimiter, b: Delimiter) -> bool
    ensures { IsTrue result ↔ (a ≡ b) }
{
    a == b
}

/// Whether two fractions have the same line.
fn same_thickness(a: Option<i32>, b: Option<i32>) -> bool
    ensures { IsTrue result ↔ (a ≡ b) }
{
    match (a, b) {
        (None, None) => true,
        (Some(a), Some(b)) => a == b,
        (None, Some(_)) | (Some(_), None) => false,
    }
}

/// Whether two fractions are equal beside their lists.
pub(crate) fn same_head(a: FractionHead, b: FractionHead) -> bool
    ensures { IsTrue result ↔ (a ≡ b) }
{
    same_thickness(a.thickness, b.thickness)
        && same_delimiter(a.left, b.left)
        && same_delimiter(a.right, b.right)
}

/// Whether two small noads are equal.
fn same_plain(a: &PlainNoad, b: &PlainNoad) -> bool
    ensures { IsTrue result ↔ (a.now ≡ b.now) }
{
    match (a, b) {
        (PlainNoad::Style(x), PlainNoad::Style(y)) => *x == *y,
        (PlainNoad::Nonscript, PlainNoad::Nonscript) => true,
        (PlainNoad::Glue(x), PlainNoad::Glue(y)) => x.same(y),
        (PlainNoad::Kern(x), PlainNoad::Kern(y)) => *x == *y,
        (PlainNoad::Left(x), PlainNoad::Left(y)) => same_delimiter(*x, *y),
        (PlainNoad::Right(x), PlainNoad::Right(y)) => same_delimiter(*x, *y),
        (
            PlainNoad::Style(_),
            PlainNoad::Nonscript
            | PlainNoad::Glue(_)
            | PlainNoad::Kern(_)
            | PlainNoad::Left(_)
            | PlainNoad::Right(_),
        )
        | (
            PlainNoad::Nonscript,
            PlainNoad::Style(_)
            | PlainNoad::Glue(_)
            | PlainNoad::Kern(_)
            | PlainNoad::Left(_)
            | PlainNoad::Right(_),
        )
        | (
            PlainNoad::Glue(_),
            PlainNoad::Style(_)
            | PlainNoad::Nonscript
            | PlainNoad::Kern(_)
            | PlainNoad::Left(_)
            | PlainNoad::Right(_),
        )
        | (
            PlainNoad::Kern(_),
            PlainNoad::Style(_)
            | PlainNoad::Nonscript
            | PlainNoad::Glue(_)
            | PlainNoad::Left(_)
            | PlainNoad::Right(_),
        )
        | (
            PlainNoad::Left(_),
            PlainNoad::Style(_)
            | PlainNoad::Nonscript
            | PlainNoad::Glue(_)
            | PlainNoad::Kern(_)
            | PlainNoad::Right(_),
        )
        | (
            PlainNoad::Right(_),
            PlainNoad::Style(_)
            | PlainNoad::Nonscript
            | PlainNoad::Glue(_)
            | PlainNoad::Kern(_)
            | PlainNoad::Left(_),
        ) => false,
    }
}

/// Whether two nodes are the same item.
fn same_item(a: &Node, b: &Node) -> bool
    ensures { IsTrue result ↔ (item_of a.now ≡ item_of b.now) }
{
    same_list(slice::from_ref(a), slice::from_ref(b))
}

/// Whether two parts of atoms are equal.
#[cycle(same)]
fn same_part(a: &Field, b: &Field) -> bool
    ensures { IsTrue result ↔ (a.now ≡ b.now) }
{
    match (a, b) {
        (Field::Empty, Field::Empty) => true,
        (Field::Character(a), Field::Character(b)) => same_character(*a, *b),
        (Field::Packed(s, a), Field::Packed(t, b)) => *s == *t && same_box(a, b),
        (Field::Formula(a), Field::Formula(b)) => same_inner(a, b),
        (Field::Empty, Field::Character(_) | Field::Packed(_, _) | Field::Formula(_))
        | (Field::Character(_), Field::Empty | Field::Packed(_, _) | Field::Formula(_))
        | (Field::Packed(_, _), Field::Empty | Field::Character(_) | Field::Formula(_))
        | (Field::Formula(_), Field::Empty | Field::Character(_) | Field::Packed(_, _)) => false,
    }
}

/// Whether two atoms are equal.
#[cycle(same)]
fn same_atom(a: &Atom, b: &Atom) -> bool
    ensures { IsTrue result ↔ (a.now ≡ b.now) }
{
    if !same_kind(a.kind, b.kind) {
        return false;
    }
    if !same_part(&a.nucleus, &b.nucleus) {
        return false;
    }
    if !same_part(&a.superscript, &b.superscript) {
        return false;
    }
    same_part(&a.subscript, &b.subscript)
}

/// Whether two fractions are equal.
#[cycle(same)]
fn same_fraction(a: &Fraction, b: &Fraction) -> bool
    ensures { IsTrue result ↔ (a.now ≡ b.now) }
{
    if !same_head(a.head, b.head) {
        return false;
    }
    if !same_inner(&a.numerator, &b.numerator) {
        return false;
    }
    same_inner(&a.denominator, &b.denominator)
}

/// Whether two choices have the same lists.
#[cycle(same)]
fn same_choice(a: &Choice, b: &Choice) -> bool
    ensures { IsTrue result ↔ (a.now ≡ b.now) }
{
    if !same_inner(&a.display, &b.display) {
        return false;
    }
    if !same_inner(&a.text, &b.text) {
        return false;
    }
    if !same_inner(&a.script, &b.script) {
        return false;
    }
    same_inner(&a.script_script, &b.script_script)
}

/// Whether two noads are the same item.
#[cycle(same)]
fn same_noad(a: &Noad, b: &Noad) -> bool
    ensures { IsTrue result ↔ (math_of a.now ≡ math_of b.now) }
{
    match (a, b) {
        (Noad::Atom(a), Noad::Atom(b)) => same_atom(a, b),
        (Noad::Fraction(a), Noad::Fraction(b)) => same_fraction(a, b),
        (Noad::Choice(a), Noad::Choice(b)) => same_choice(a, b),
        (Noad::Plain(a), Noad::Plain(b)) => same_plain(a, b),
        (Noad::Node(a), Noad::Node(b)) => same_item(a, b),
        (Noad::Atom(_), Noad::Fraction(_) | Noad::Choice(_) | Noad::Plain(_) | Noad::Node(_))
        | (Noad::Fraction(_), Noad::Atom(_) | Noad::Choice(_) | Noad::Plain(_) | Noad::Node(_))
        | (Noad::Choice(_), Noad::Atom(_) | Noad::Fraction(_) | Noad::Plain(_) | Noad::Node(_))
        | (Noad::Plain(_), Noad::Atom(_) | Noad::Fraction(_) | Noad::Choice(_) | Noad::Node(_))
        | (Noad::Node(_), Noad::Atom(_) | Noad::Fraction(_) | Noad::Choice(_) | Noad::Plain(_)) =>
            false,
    }
}

/// Whether two lists that noads have are equal.
#[cycle(same)]
pub(crate) fn same_inner(a: &InnerList, b: &InnerList) -> bool
    ensures { IsTrue result ↔ (a.now ≡ b.now) }
{
    same_mlist(a.as_slice(), b.as_slice())
}

/// Whether two lists have the same items.
#[cycle(same)]
pub(crate) fn same_mlist(a: &[Noad], b: &[Noad]) -> bool
    ensures { IsTrue result ↔ (mlist_of a.now ≡ mlist_of b.now) }
{
    if a.len() != b.len() {
        return false;
    }
    for i in 0..a.len() {
        if !same_noad(&a[i], &b[i]) {
            return false;
        }
    }
    true
}
