//! The box of a delimiter (TeX: The Program, sections 706 and 710).
ghost use Rattle.std.specs.Prelude.{◌≡◌, ◌≢◌, ◌≤◌, ◌^◌, unsigned_abs, IfOk, IfErr, Ok, Err};
ghost use Rattle.tx_delim.specs.Delimiters as spec;
ghost use Rattle.tx_delim.specs.declared.error.DelimError.TheVariants.{OutOfMemory};

use crate::boxes::{character_box, empty_box};
use crate::error::DelimError;
use crate::finding::recipe_in;
use crate::search::FontCharacter;
use crate::stacking::stack_box;
use std::alloc::Global;
use tx_node::BoxNode;
use tx_tfm::Fonts;

/// The box of a character, which is built by its recipe, if it has one, as tall as is asked, in sp.
fn built(
    alloc: Global,
    fonts: &Fonts,
    asked: i64,
    font: u8,
    code: u8,
) -> Result<BoxNode, DelimError>
    requires { unsigned_abs asked ≤ 2 ^ 59 }
    ensures made { IfOk result (λ made. spec.built fonts.now asked font code ≡ Ok made) }
    ensures error { IfErr result (λ e. e ≢ OutOfMemory → spec.built fonts.now asked font code ≡ Err e) }
{
    match recipe_in(fonts, font, code) {
        None => character_box(alloc, fonts, font, code),
        Some(recipe) => stack_box(alloc, fonts, font, recipe, asked),
    }
}

/// The box of the character that was found for a delimiter as tall as is asked, in sp, or an empty box of this width, in sp, where
/// none was. `SizeOutOfRange` exactly where a size of the box, or of a piece of it, is no dimension.
pub fn delimiter_box(
    alloc: Global,
    fonts: &Fonts,
    asked: i64,
    null: i32,
    found: Option<FontCharacter>,
) -> Result<BoxNode, DelimError>
    requires { unsigned_abs asked ≤ 2 ^ 59 }
    ensures made { IfOk result (λ made. spec.delimiter_box fonts.now asked null found ≡ Ok made) }
    ensures error { IfErr result (λ e. e ≢ OutOfMemory → spec.delimiter_box fonts.now asked null found ≡ Err e) }
{
    match found {
        None => Ok(empty_box(alloc, null)?),
        Some(character) => built(alloc, fonts, asked, character.font, character.code),
    }
}
