//! Finding the word behind glue.
ghost use Rattle.std.specs.Prelude.{◌≡◌, ◌≤◌, ◌<◌, ◌+◌, suc, List, ◌∷◌, length, reverse, None, Some, IfNone, IfSome, IfOk, if◌then◌else◌};
ghost use Rattle.std.specs.List.{flat_map, prefix_len};
ghost use Rattle.tx_node.specs.Items.{Item};
ghost use Rattle.tx_node.specs.Nodes.{item_of, list_of};
ghost use Rattle.tx_hyphenate.specs.Finding as spec;
ghost use Rattle.tx_hyphenate.specs.Hyphenated.{codes_between as items_between, font_at_place};
ghost use Rattle.tx_hyphenate.specs.Letters.{codes_of as codes_of_item};

use crate::kind::{Kind, append_codes, first_code, font_of, kind_of};
use std::alloc::{AllocError, Global};
use tx_bytes::Bytes;
use tx_node::{Node, Plain, Shared};

/// The characters that items were made of. Its only error is want of memory.
pub(crate) fn codes_of(alloc: Global, nodes: &[Node]) -> Result<Bytes, AllocError>
    ensures { IfOk result (λ codes. codes ≡ flat_map codes_of_item (list_of nodes.now)) }
{
    let mut codes = Bytes::new(alloc);
    for node in nodes {
        append_codes(&mut codes, node)?;
    }
    Ok(codes)
}

/// Whether a code is a letter's: its \lccode isn't 0.
fn is_letter(lower: &[u8], code: u8) -> bool
    requires { length lower.now ≡ 256 }
    ensures { result ≡ spec.is_letter lower.now code }
{
    lower[usize::from(code)] != 0
}

/// Whether an item of this kind whose first character is this may stand between the glue and the word.
fn may_come_before(lower: &[u8], kind: Kind, first: Option<u8>) -> bool
    requires { length lower.now ≡ 256 }
    ensures { result ≡ spec.comes_before_by lower.now first kind }
{
    match kind {
        Kind::Characters => match first {
            None => true,
            Some(code) => !is_letter(lower, code),
        },
        Kind::Kern | Kind::Special => true,
        Kind::Glue | Kind::Ends | Kind::Other => false,
    }
}

/// Whether an item may stand between the glue and the word.
fn comes_before(lower: &[u8], node: &Node) -> bool
    requires { length lower.now ≡ 256 }
    ensures { result ≡ spec.comes_before lower.now (item_of node.now) }
{
    may_come_before(lower, kind_of(node), first_code(node))
}

/// Whether a word begins with an item whose first character is this.
fn begins(lower: &[u8], uc_hyph: i64, first: Option<u8>) -> bool
    requires { length lower.now ≡ 256 }
    ensures { result ≡ spec.begins_by lower.now uc_hyph first }
{
    match first {
        None => false,
        Some(code) => {
            is_letter(lower, code) && (lower[usize::from(code)] == code || 1 <= uc_hyph)
        }
    }
}

/// How many items come before the word or what stands in its place.
fn count_before(lower: &[u8], nodes: &[Node]) -> usize
    requires { length lower.now ≡ 256 }
    ensures { result ≡ prefix_len (spec.comes_before lower.now) (list_of nodes.now) }
{
    for k in 0..nodes.len() {
        if !comes_before(lower, &nodes[k]) {
            return k;
        }
    }
    nodes.len()
}

/// Where the word begins, by the items before it; None where there is none.
pub(crate) fn word_start(lower: &[u8], uc_hyph: i64, nodes: &[Node]) -> Option<usize>
    requires { length lower.now ≡ 256 }
    ensures value { result ≡ spec.word_start lower.now uc_hyph (list_of nodes.now) }
    ensures within { IfSome result (λ start. start < length nodes.now) }
{
    let count = count_before(lower, nodes);
    if count < nodes.len() && begins(lower, uc_hyph, first_code(&nodes[count])) {
        Some(count)
    } else {
        None
    }
}

/// Whether an item is in a run of a font.
fn is_in_run(font: u8, node: &Node) -> bool
    ensures { result ≡ spec.is_in_run font (item_of node.now) }
{
    match kind_of(node) {
        Kind::Characters => font_of(node) == Some(font),
        Kind::Kern => true,
        Kind::Special | Kind::Glue | Kind::Ends | Kind::Other => false,
    }
}

/// Whether all of these are letters.
fn are_letters(lower: &[u8], codes: &[u8]) -> bool
    requires { length lower.now ≡ 256 }
    ensures { result ≡ spec.are_letters lower.now codes.now }
{
    for code in codes {
        if !is_letter(lower, *code) {
            return false;
        }
    }
    true
}

/// How many letters these are; None where one is none.
fn count_letters(lower: &[u8], codes: &[u8]) -> Option<usize>
    requires { length lower.now ≡ 256 }
    ensures { result ≡ (if spec.are_letters lower.now codes.now then Some (length codes.now) else None) }
{
    if are_letters(lower, codes) {
        Some(codes.len())
    } else {
        None
    }
}

/// How many letters an item is; None where it isn't letters alone.
fn letters_of(lower: &[u8], node: &Node) -> Option<usize>
    requires { length lower.now ≡ 256 }
    ensures { result ≡ spec.letters_of lower.now (item_of node.now) }
{
    match node {
        Node::Plain(Plain::Character(character)) => {
            if is_letter(lower, character.code) {
                Some(1)
            } else {
                None
            }
        }
        Node::Shared(item) => match item.as_ref() {
            Shared::Ligature(ligature) => count_letters(lower, ligature.from.as_slice()),
            Shared::Rule(_) | Shared::Leaders(_) | Shared::Special(_) | Shared::Mark(_) => Some(0),
        },
        Node::Plain(_)
        | Node::Box(_, _)
        | Node::Discretionary(_)
        | Node::Adjustment(_)
        | Node::Insertion(_)
        | Node::BoxLeaders(_) => Some(0),
    }
}

/// How many letters an item adds to a word of a font that has so many; None where it doesn't belong to it.
fn letters_more(lower: &[u8], font: u8, count: usize, node: &Node) -> Option<usize>
    requires lower { length lower.now ≡ 256 }
    requires few { count ≤ 63 }
    ensures some { IfSome result (λ more. (count + more ≤ 63) × ((list : List Item) → spec.word_length lower.now font count (item_of node.now ∷ list) ≡ suc (spec.word_length lower.now font (count + more) list))) }
    ensures none { IfNone result ((list : List Item) → spec.word_length lower.now font count (item_of node.now ∷ list) ≡ 0) }
{
    match letters_of(lower, node) {
        Some(more) if is_in_run(font, node) && more <= 63 - count => Some(more),
        _ => None,
    }
}

/// How many items the word at the beginning of these has.
pub(crate) fn word_length(lower: &[u8], font: u8, nodes: &[Node]) -> usize
    requires { length lower.now ≡ 256 }
    ensures value { result ≡ spec.word_length lower.now font 0 (list_of nodes.now) }
    ensures within { result ≤ length nodes.now }
{
    let mut count = 0;
    for k in 0..nodes.len() {
        match letters_more(lower, font, count, &nodes[k]) {
            Some(more) => count += more,
            None => return k,
        }
    }
    nodes.len()
}

/// How many of the last items are in a run of a font.
pub(crate) fn run_before(font: u8, nodes: &[Node]) -> usize
    ensures value { result ≡ prefix_len (spec.is_in_run font) (reverse (list_of nodes.now)) }
    ensures within { result ≤ length nodes.now }
{
    let mut start = nodes.len();
    while start > 0 && is_in_run(font, &nodes[start - 1]) {
        start -= 1;
    }
    nodes.len() - start
}

/// How many of the first items are in a run of a font.
pub(crate) fn run_behind(font: u8, nodes: &[Node]) -> usize
    ensures value { result ≡ prefix_len (spec.is_in_run font) (list_of nodes.now) }
    ensures within { result ≤ length nodes.now }
{
    for k in 0..nodes.len() {
        if !is_in_run(font, &nodes[k]) {
            return k;
        }
    }
    nodes.len()
}

/// Whether an item may stand between the word and what ends it.
fn comes_behind(node: &Node) -> bool
    ensures { result ≡ spec.comes_behind (item_of node.now) }
{
    match kind_of(node) {
        Kind::Characters | Kind::Kern => true,
        Kind::Special | Kind::Glue | Kind::Ends | Kind::Other => false,
    }
}

/// Whether a word may end before an item.
fn ends(node: &Node) -> bool
    ensures { result ≡ spec.ends (item_of node.now) }
{
    match kind_of(node) {
        Kind::Special | Kind::Glue | Kind::Ends => true,
        Kind::Characters | Kind::Kern | Kind::Other => false,
    }
}

/// How many items stand between the word and what may end it.
fn count_behind(nodes: &[Node]) -> usize
    ensures { result ≡ prefix_len spec.comes_behind (list_of nodes.now) }
{
    for k in 0..nodes.len() {
        if !comes_behind(&nodes[k]) {
            return k;
        }
    }
    nodes.len()
}

/// Whether a word may end before these items.
pub(crate) fn may_end(nodes: &[Node]) -> bool
    ensures { result ≡ spec.may_end (list_of nodes.now) }
{
    let count = count_behind(nodes);
    count >= nodes.len() || ends(&nodes[count])
}

/// The characters of the items from one place to another. Its only error is want of memory.
pub(crate) fn codes_between(
    alloc: Global,
    nodes: &[Node],
    start: usize,
    end: usize,
) -> Result<Bytes, AllocError>
    requires order { start ≤ end }
    requires within { end ≤ length nodes.now }
    ensures { IfOk result (λ codes. codes ≡ items_between start end (list_of nodes.now)) }
{
    codes_of(alloc, &nodes[start..end])
}

/// The font of the item at a place; 0 where it has none.
pub(crate) fn font_at(nodes: &[Node], word: usize) -> u8
    ensures { result ≡ font_at_place word (list_of nodes.now) }
{
    match nodes.get(word) {
        Some(node) => font_of(node).unwrap_or(0),
        None => 0,
    }
}
