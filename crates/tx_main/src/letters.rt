//! The main loop of horizontal lists (TeX: The Program, sections 1034 to 1041): characters that follow one another join the open
//! word, and spaces between them end it.
ghost use Rattle.std.specs.Prelude.{◌≡◌, Some, IfOk, OnOk};
ghost use Rattle.tx_lettering.specs.Words.{factor_now as factor_of_list};
ghost use Rattle.tx_pending.specs.Plain.{IsNext};
ghost use Rattle.tx_state.specs.Meanings.{state_of};
ghost use Rattle.tx_turn.specs.Going.{GoesOn};
ghost use Rattle.tx_turn.specs.MainLoop.{IsLooping};
ghost use Rattle.tx_main.specs.MainLoop.{spaced};
ghost use Rattle.tx_main.specs.Turns.{tex_effects};

use std::alloc::{AllocError, Global};
use tx_lettering::{end_word, pass_factor, word_params};
use tx_lex::{PlainToken, ReadState};
use tx_nest::{SpaceFactor, append_item};
use tx_node::{Node, Plain};
use tx_num::Glue;
use tx_state::State;
use tx_turn::Going;
use tx_word::space_between;

/// Takes a turn of the character that comes next, if its font has it, and answers whether that is so; else nothing changes. Its
/// only error is want of memory.
pub(crate) fn set_letter(
    alloc: Global,
    s: &mut State,
    font: u8,
    factor: SpaceFactor,
    code: u8,
) -> Result<bool, AllocError>
    requires looping { IsLooping s.old font }
    requires factor { factor_of_list (state_of s.old) ≡ Some factor }
    requires comes { IsNext s.old.table.table.categories s.old.input (PlainToken.Set code) }
    ensures { IfOk result (λ went. GoesOn tex_effects went (Going.Letters font) s.old s.new) }
{
    if !s.words.has_next(font, code) {
        return Ok(false);
    }
    s.words.join(alloc, font, code)?;
    s.input.pass_first(ReadState::M);
    pass_factor(s, factor, code);
    Ok(true)
}

/// A space is passed, ends the word, and is this glue. Its only error is want of memory.
fn put_space(alloc: Global, s: &mut State, glue: Glue) -> Result<(), AllocError>
    ensures state { OnOk result (state_of s.new ≡ spaced (state_of s.old) glue) }
    ensures phase { OnOk result (s.new.phase ≡ s.old.phase) }
    ensures said { OnOk result (s.new.said ≡ s.old.said) }
{
    s.input.pass_first(ReadState::S);
    end_word(alloc, s)?;
    append_item(s.lists.nest.top(), Node::Plain(Plain::Glue(glue)))
}

/// Takes a turn of the space that comes next, if its glue has sizes that are dimensions, and answers whether that is so; else
/// nothing changes. Its only error is want of memory.
pub(crate) fn set_space(
    alloc: Global,
    s: &mut State,
    font: u8,
    factor: SpaceFactor,
) -> Result<bool, AllocError>
    requires looping { IsLooping s.old font }
    requires factor { factor_of_list (state_of s.old) ≡ Some factor }
    requires comes { IsNext s.old.table.table.categories s.old.input PlainToken.Blank }
    ensures { IfOk result (λ went. GoesOn tex_effects went (Going.Letters font) s.old s.new) }
{
    let params = word_params(&s.table);
    let Some(glue) = space_between(s.words.fonts(), &params, font, factor.get()) else {
        return Ok(false);
    };
    put_space(alloc, s, glue)?;
    Ok(true)
}
