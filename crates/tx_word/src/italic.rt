//! The kern of `\/`.
ghost use Rattle.std.specs.Prelude.{◌≡◌};
ghost use Rattle.tx_node.specs.Nodes.{item_of};
ghost use Rattle.tx_tfm.specs.Fonts.{character_italic};
ghost use Rattle.tx_word.specs.Italics as spec;

use tx_node::{Node, Nodes, Plain, Shared};
use tx_tfm::Fonts;

/// The italic correction of a character in its font, in sp.
fn italic(fonts: &Fonts, font: u8, code: u8) -> i32
    ensures { result ≡ character_italic fonts.now font code }
{
    fonts.italic(font, code) as i32
}

/// The italic correction of a ligature, in sp; None of other items.
fn shared_italic(fonts: &Fonts, shared: &Shared) -> Option<i32>
    ensures { result ≡ spec.shared_italic fonts.now shared.now }
{
    match shared {
        Shared::Ligature(ligature) => Some(italic(
            fonts,
            ligature.character.font,
            ligature.character.code,
        )),
        Shared::Rule(_) | Shared::Leaders(_) | Shared::Special(_) | Shared::Mark(_) => None,
    }
}

/// The italic correction of a character or a ligature, in sp; None of other items.
fn item_italic(fonts: &Fonts, node: &Node) -> Option<i32>
    ensures { result ≡ spec.item_italic fonts.now (item_of node.now) }
{
    match node {
        Node::Plain(Plain::Character(character)) => {
            Some(italic(fonts, character.font, character.code))
        }
        Node::Plain(Plain::Kern(_, _) | Plain::Glue(_) | Plain::Penalty(_)) => None,
        Node::Shared(shared) => shared_italic(fonts, shared.as_ref()),
        Node::Box(_, _) | Node::Discretionary(_) | Node::Adjustment(_) | Node::Insertion(_) => None,
        Node::BoxLeaders(_) => None,
    }
}

/// The italic correction of the last item, in sp, where it is a character or a ligature.
pub fn last_italic(fonts: &Fonts, nodes: &Nodes) -> Option<i32>
    ensures { result ≡ spec.last_italic fonts.now nodes.now }
{
    match nodes.as_slice().last() {
        Some(node) => item_italic(fonts, node),
        None => None,
    }
}
