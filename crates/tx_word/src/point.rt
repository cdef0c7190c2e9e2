//! The hyphen character of a font, and the discretionary of `\-`.
ghost use Rattle.std.specs.Prelude.{◌≡◌, IfOk};
ghost use Rattle.tx_node.specs.Nodes.{item_of};
ghost use Rattle.tx_word.specs.Points as spec;

use crate::divide::{hyphen_code, text_before};
use std::alloc::{AllocError, Global};
use tx_node::{Node, Nodes};
use tx_prim::FontNumber;
use tx_tfm::Fonts;

/// What `\-` puts into a list, and the hyphen character, if the font lacks it.
#[derive(Drop)]
pub struct HyphenPoint {
    pub node: Node,
    pub lacking: Option<u8>,
}

/// The hyphen character of the font of a number, None where its \hyphenchar isn't in 0 to 255.
pub(crate) fn hyphen_of(fonts: &Fonts, font: u8) -> Option<u8>
    ensures { result ≡ spec.hyphen_of fonts.now font }
{
    hyphen_code(fonts.integer(FontNumber::Hyphen, font) as i64)
}

/// The hyphen character, where the font lacks it.
pub fn hyphen_lacking(fonts: &Fonts, font: u8) -> Option<u8>
    ensures { result ≡ spec.hyphen_lacking fonts.now font }
{
    match hyphen_of(fonts, font) {
        Some(hyphen) if !fonts.has_character(font, hyphen) => Some(hyphen),
        _ => None,
    }
}

/// The text before a break at `\-`. Its only error is want of memory.
fn hyphen_text(alloc: Global, fonts: &Fonts, font: u8) -> Result<Nodes, AllocError>
    ensures { IfOk result (λ list. list ≡ spec.hyphen_text fonts.now font (spec.hyphen_of fonts.now font)) }
{
    match hyphen_of(fonts, font) {
        Some(hyphen) => text_before(alloc, fonts, font, hyphen),
        None => Ok(Nodes::new(alloc)),
    }
}

/// What `\-` puts into a list, where the font of this number is current. Its only error is want of memory.
pub fn discretionary_hyphen(
    alloc: Global,
    fonts: &Fonts,
    font: u8,
) -> Result<HyphenPoint, AllocError>
    ensures item { IfOk result (λ point. item_of point.node ≡ spec.hyphen_item fonts.now font) }
    ensures lacking { IfOk result (λ point. point.lacking ≡ spec.hyphen_lacking fonts.now font) }
{
    let before = hyphen_text(alloc, fonts, font)?;
    Ok(HyphenPoint {
        node: Node::from_discretionary(alloc, before, Nodes::new(alloc), 0, false)?,
        lacking: hyphen_lacking(fonts, font),
    })
}
