//! Boxes with sizes of their own, and a character in one (TeX: The Program, sections 136 and 709).
ghost use Rattle.std.specs.Prelude.{◌≡◌, ◌≢◌, ◌≤◌, ◌^◌, unsigned_abs, IfOk, IfErr, Ok, Err};
ghost use Rattle.tx_node.specs.Nodes.{item_of};
ghost use Rattle.tx_word.specs.Words.{character_of as character_in};
ghost use Rattle.tx_delim.specs.Boxes as spec;
ghost use Rattle.tx_delim.specs.declared.error.DelimError.TheVariants.{OutOfMemory};

use crate::error::DelimError;
use std::alloc::{AllocError, Global};
use tx_node::{BoxHead, BoxNode, Character, Direction, Node, Nodes, Plain, Setting};
use tx_num::fits;
use tx_tfm::Fonts;

/// How deep boxes may nest.
const MOST_NESTING: u16 = 500;

/// A character of the font of a number, with the sizes that the font gives it.
pub fn character_of(fonts: &Fonts, font: u8, code: u8) -> Character
    ensures { result ≡ character_in fonts.now font code }
{
    match fonts.get(font) {
        Some(named) => {
            let metrics = named.font.character(code);
            Character {
                font,
                code,
                width: metrics.width,
                height: metrics.height,
                depth: metrics.depth,
            }
        }
        None => Character {
            font,
            code,
            width: 0,
            height: 0,
            depth: 0,
        },
    }
}

/// A list in a box of sizes of its own, in sp. `SizeOutOfRange` exactly where one of these is no dimension, else `TooDeep` exactly
/// where boxes would nest more than 500 deep.
#[tactic(auto, unfolding(crate::specs::Boxes::sized_box))]
pub(crate) fn sized_box(
    alloc: Global,
    direction: Direction,
    width: i64,
    height: i64,
    depth: i64,
    list: Nodes,
) -> Result<BoxNode, DelimError>
    ensures made { IfOk result (λ made. spec.sized_box direction width height depth list ≡ Ok made) }
    ensures error { IfErr result (λ e. e ≢ OutOfMemory → spec.sized_box direction width height depth list ≡ Err e) }
{
    if !(fits(width) && fits(height) && fits(depth)) {
        return Err(DelimError::SizeOutOfRange);
    }
    if list.nesting() >= MOST_NESTING {
        return Err(DelimError::TooDeep);
    }
    let head = BoxHead {
        direction,
        width: width as i32,
        height: height as i32,
        depth: depth as i32,
        setting: Setting::Natural,
    };
    Ok(BoxNode::new(alloc, head, list)?)
}

/// A horizontal box without a list, so many sp wide. Its only error is want of memory.
pub(crate) fn empty_box(alloc: Global, width: i32) -> Result<BoxNode, AllocError>
    ensures { IfOk result (λ made. made ≡ spec.empty_box width) }
{
    let head = BoxHead {
        direction: Direction::Horizontal,
        width,
        height: 0,
        depth: 0,
        setting: Setting::Natural,
    };
    BoxNode::new(alloc, head, Nodes::new(alloc))
}

/// How wide a character is with its italic correction, in sp.
pub fn full_width(fonts: &Fonts, font: u8, code: u8) -> i64
    ensures value { result ≡ spec.full_width fonts.now font code }
    ensures bound { unsigned_abs result ≤ 2 ^ 32 }
{
    fonts.width(font, code) + fonts.italic(font, code)
}

/// A list of one character. Its only error is want of memory.
fn single(alloc: Global, character: Character) -> Result<Nodes, AllocError>
    ensures { IfOk result (λ list. list ≡ spec.character_list character) }
{
    let mut list = Nodes::new(alloc);
    list.push(Node::Plain(Plain::Character(character)))?;
    Ok(list)
}

/// A character of the font of a number in a box, which is as wide as it is with its italic correction. `SizeOutOfRange` exactly
/// where one of its sizes is no dimension.
pub fn character_box(
    alloc: Global,
    fonts: &Fonts,
    font: u8,
    code: u8,
) -> Result<BoxNode, DelimError>
    ensures made { IfOk result (λ made. spec.character_box fonts.now font code ≡ Ok made) }
    ensures error { IfErr result (λ e. e ≢ OutOfMemory → spec.character_box fonts.now font code ≡ Err e) }
{
    let list = single(alloc, character_of(fonts, font, code))?;
    let width = full_width(fonts, font, code);
    let height = fonts.height(font, code);
    let depth = fonts.depth(font, code);
    sized_box(alloc, Direction::Horizontal, width, height, depth, list)
}

/// The same as a node.
pub(crate) fn character_item(
    alloc: Global,
    fonts: &Fonts,
    font: u8,
    code: u8,
) -> Result<Node, DelimError>
    ensures made { IfOk result (λ node. spec.character_item fonts.now font code ≡ Ok (item_of node)) }
    ensures error { IfErr result (λ e. e ≢ OutOfMemory → spec.character_item fonts.now font code ≡ Err e) }
{
    let inner = character_box(alloc, fonts, font, code)?;
    Ok(Node::from_box(alloc, 0, inner)?)
}
