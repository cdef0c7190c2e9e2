//! Characters that are stacked by a recipe (TeX: The Program, sections 711 to 713).
ghost use Rattle.std.specs.Prelude.{◌≡◌, ◌≢◌, ◌≤◌, ◌*◌, ◌^◌, ◌++◌, replicate, unsigned_abs, IfOk, IfErr, OnOk, Ok, Err};
ghost use Rattle.tx_node.specs.Nodes.{item_of};
ghost use Rattle.tx_delim.specs.Outcomes.{with_more};
ghost use Rattle.tx_delim.specs.Stacking as spec;
ghost use Rattle.tx_delim.specs.declared.error.DelimError.TheVariants.{OutOfMemory};

use crate::boxes::{character_item, full_width, sized_box};
use crate::error::DelimError;
use crate::recipes::{middle_times, repeats_of, stack_depth, stack_height, times_of};
use std::alloc::{AllocError, Global};
use tx_node::{BoxNode, Direction, Node, Nodes};
use tx_num::fits;
use tx_tfm::{Fonts, Word};

/// Puts a node so often at the end of a list. Its only error is want of memory.
#[tactic(auto, using(crate::proofs::Copies::copies_on, crate::proofs::Copies::copies_over))]
fn push_copies(list: &mut Nodes, node: &Node, times: u64) -> Result<(), AllocError>
    ensures { OnOk result (list.new ≡ list.old ++ replicate times (item_of node.now)) }
{
    let mut left = times;
    while left > 0 {
        list.push(node.clone()?)?;
        left -= 1;
    }
    Ok(())
}

/// Puts a piece so often below those of a stack.
fn append_pieces(
    alloc: Global,
    list: &mut Nodes,
    fonts: &Fonts,
    font: u8,
    code: u8,
    times: u64,
) -> Result<(), DelimError>
    ensures made { OnOk result (with_more list.old (spec.pieces fonts.now font code times) ≡ Ok list.new) }
    ensures error { IfErr result (λ e. e ≢ OutOfMemory → spec.pieces fonts.now font code times ≡ Err e) }
{
    if times == 0 {
        return Ok(());
    }
    let node = character_item(alloc, fonts, font, code)?;
    push_copies(list, &node, times)?;
    Ok(())
}

/// The stack down to its middle.
#[tactic(auto, unfolding(crate::specs::Stacking::upper_part))]
fn upper_part(
    alloc: Global,
    fonts: &Fonts,
    font: u8,
    recipe: Word,
    repeats: u64,
) -> Result<Nodes, DelimError>
    ensures made { IfOk result (λ list. spec.upper_part fonts.now font recipe repeats ≡ Ok list) }
    ensures error { IfErr result (λ e. e ≢ OutOfMemory → spec.upper_part fonts.now font recipe repeats ≡ Err e) }
{
    let mut list = Nodes::new(alloc);
    let top = times_of(recipe.a);
    append_pieces(alloc, &mut list, fonts, font, recipe.a, top)?;
    append_pieces(alloc, &mut list, fonts, font, recipe.d, repeats)?;
    Ok(list)
}

/// All of the stack.
#[tactic(auto, unfolding(crate::specs::Stacking::stack_list))]
fn stack_list(
    alloc: Global,
    fonts: &Fonts,
    font: u8,
    recipe: Word,
    repeats: u64,
) -> Result<Nodes, DelimError>
    ensures made { IfOk result (λ list. spec.stack_list fonts.now font recipe repeats ≡ Ok list) }
    ensures error { IfErr result (λ e. e ≢ OutOfMemory → spec.stack_list fonts.now font recipe repeats ≡ Err e) }
{
    let mut list = upper_part(alloc, fonts, font, recipe, repeats)?;
    let middle = times_of(recipe.b);
    append_pieces(alloc, &mut list, fonts, font, recipe.b, middle)?;
    let again = middle_times(recipe, repeats);
    append_pieces(alloc, &mut list, fonts, font, recipe.d, again)?;
    let bottom = times_of(recipe.c);
    append_pieces(alloc, &mut list, fonts, font, recipe.c, bottom)?;
    Ok(list)
}

/// Its box, with so many repetitions on each side.
#[tactic(auto, unfolding(crate::specs::Stacking::stack_of))]
fn stack_of(
    alloc: Global,
    fonts: &Fonts,
    font: u8,
    recipe: Word,
    repeats: u64,
) -> Result<BoxNode, DelimError>
    requires count { repeats ≤ 2 ^ 61 }
    requires size { repeats * unsigned_abs (spec.step_tallness fonts.now font recipe) ≤ 2 ^ 61 }
    ensures made { IfOk result (λ made. spec.stack_of fonts.now font recipe repeats ≡ Ok made) }
    ensures error { IfErr result (λ e. e ≢ OutOfMemory → spec.stack_of fonts.now font recipe repeats ≡ Err e) }
{
    let width = full_width(fonts, font, recipe.d);
    let height = stack_height(fonts, font, recipe, repeats);
    let depth = stack_depth(fonts, font, recipe, repeats);
    if !(fits(width) && fits(height) && fits(depth)) {
        return Err(DelimError::SizeOutOfRange);
    }
    let list = stack_list(alloc, fonts, font, recipe, repeats)?;
    sized_box(alloc, Direction::Vertical, width, height, depth, list)
}

/// The box of a stack that is at least as tall as is asked, in sp, if its repeated piece has a size. `SizeOutOfRange` exactly where
/// one of its sizes or of its pieces' is no dimension.
pub(crate) fn stack_box(
    alloc: Global,
    fonts: &Fonts,
    font: u8,
    recipe: Word,
    asked: i64,
) -> Result<BoxNode, DelimError>
    requires { unsigned_abs asked ≤ 2 ^ 59 }
    ensures made { IfOk result (λ made. spec.stack_box fonts.now font recipe asked ≡ Ok made) }
    ensures error { IfErr result (λ e. e ≢ OutOfMemory → spec.stack_box fonts.now font recipe asked ≡ Err e) }
{
    let count = repeats_of(fonts, font, recipe, asked);
    stack_of(alloc, fonts, font, recipe, count)
}
