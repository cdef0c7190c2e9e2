//! What items are to hyphenation.
ghost use Rattle.std.specs.Prelude.{◌≡◌, ◌++◌, OnOk};
ghost use Rattle.tx_node.specs.Nodes.{item_of};
ghost use Rattle.tx_hyphenate.specs.Kinds as kinds;
ghost use Rattle.tx_hyphenate.specs.Letters as spec;

use std::alloc::AllocError;
use tx_bytes::Bytes;
use tx_node::{KernKind, Node, Plain, Shared};

/// What an item is to hyphenation (TeX: The Program, sections 866 and 896 to 899).
#[derive(Clone, Copy, PartialEq, Eq)]
pub enum Kind {
    /// A character, or a ligature.
    Characters,
    /// A kern that a font's table gave.
    Kern,
    /// A \special.
    Special,
    /// Glue, or leaders.
    Glue,
    /// Another item behind which a word may end: a kern of \kern, a penalty, an insertion, a \vadjust or a mark.
    Ends,
    /// A box, a rule, a discretionary, or an end of a formula.
    Other,
}

fn plain_kind(item: Plain) -> Kind
    ensures { result ≡ kinds.plain_kind item }
{
    match item {
        Plain::Kern(KernKind::Implicit, _) => Kind::Kern,
        Plain::Kern(KernKind::Accent | KernKind::Explicit, _) | Plain::Penalty(_) => Kind::Ends,
        Plain::Kern(KernKind::MathOn | KernKind::MathOff, _) => Kind::Other,
        Plain::Glue(_) => Kind::Glue,
        Plain::Character(_) => Kind::Characters,
    }
}

fn shared_kind(item: &Shared) -> Kind
    ensures { result ≡ kinds.shared_kind item.now }
{
    match item {
        Shared::Rule(_) => Kind::Other,
        Shared::Leaders(_) => Kind::Glue,
        Shared::Special(_) => Kind::Special,
        Shared::Ligature(_) => Kind::Characters,
        Shared::Mark(_) => Kind::Ends,
    }
}

/// What an item is to hyphenation.
pub(crate) fn kind_of(node: &Node) -> Kind
    ensures { result ≡ kinds.kind (item_of node.now) }
{
    match node {
        Node::Plain(item) => plain_kind(*item),
        Node::Shared(item) => shared_kind(item),
        Node::Box(_, _) | Node::Discretionary(_) => Kind::Other,
        Node::Adjustment(_) | Node::Insertion(_) => Kind::Ends,
        Node::BoxLeaders(_) => Kind::Glue,
    }
}

/// Whether items stand in a formula behind this one, where they do before it or not.
pub(crate) fn is_formula_behind(formula: bool, node: &Node) -> bool
    ensures { result ≡ kinds.is_formula_behind formula (item_of node.now) }
{
    match node {
        Node::Plain(Plain::Kern(KernKind::MathOn, _)) => true,
        Node::Plain(Plain::Kern(KernKind::MathOff, _)) => false,
        Node::Plain(_)
        | Node::Shared(_)
        | Node::Box(_, _)
        | Node::Discretionary(_)
        | Node::Adjustment(_)
        | Node::Insertion(_)
        | Node::BoxLeaders(_) => formula,
    }
}

/// The font of a character or a ligature; None of other items.
pub(crate) fn font_of(node: &Node) -> Option<u8>
    ensures { result ≡ spec.font_of (item_of node.now) }
{
    match node {
        Node::Plain(Plain::Character(character)) => Some(character.font),
        Node::Shared(item) => match item.as_ref() {
            Shared::Ligature(ligature) => Some(ligature.character.font),
            Shared::Rule(_) | Shared::Leaders(_) | Shared::Special(_) | Shared::Mark(_) => None,
        },
        Node::Plain(_)
        | Node::Box(_, _)
        | Node::Discretionary(_)
        | Node::Adjustment(_)
        | Node::Insertion(_)
        | Node::BoxLeaders(_) => None,
    }
}

/// The first of the characters that an item was made of.
pub(crate) fn first_code(node: &Node) -> Option<u8>
    ensures { result ≡ spec.first_code (item_of node.now) }
{
    match node {
        Node::Plain(Plain::Character(character)) => Some(character.code),
        Node::Shared(item) => match item.as_ref() {
            Shared::Ligature(ligature) => ligature.from.as_slice().first().copied(),
            Shared::Rule(_) | Shared::Leaders(_) | Shared::Special(_) | Shared::Mark(_) => None,
        },
        Node::Plain(_)
        | Node::Box(_, _)
        | Node::Discretionary(_)
        | Node::Adjustment(_)
        | Node::Insertion(_)
        | Node::BoxLeaders(_) => None,
    }
}

/// Puts the characters that an item was made of behind others. Its only error is want of memory.
pub(crate) fn append_codes(codes: &mut Bytes, node: &Node) -> Result<(), AllocError>
    ensures { OnOk result (codes.new ≡ codes.old ++ spec.codes_of (item_of node.now)) }
{
    match node {
        Node::Plain(Plain::Character(character)) => codes.push(character.code),
        Node::Shared(item) => match item.as_ref() {
            Shared::Ligature(ligature) => codes.append(ligature.from.as_slice()),
            Shared::Rule(_) | Shared::Leaders(_) | Shared::Special(_) | Shared::Mark(_) => Ok(()),
        },
        Node::Plain(_)
        | Node::Box(_, _)
        | Node::Discretionary(_)
        | Node::Adjustment(_)
        | Node::Insertion(_)
        | Node::BoxLeaders(_) => Ok(()),
    }
}
