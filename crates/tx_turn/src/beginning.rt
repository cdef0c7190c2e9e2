//! How a run begins (TeX: The Program, sections 1332 and 1337).
ghost use Rattle.std.specs.Prelude.{◌≡◌, ◌∷◌, [], IfOk};
ghost use Rattle.tx_machine.specs.Ranges.{IsDate};
ghost use Rattle.tx_parts.specs.declared.parts.Due.TheVariants.{OpenMain};
ghost use Rattle.tx_state.specs.declared.parts.Phase.{Phase};
ghost use Rattle.tx_state.specs.Meanings.{meaning_of, state_of};
ghost use Rattle.tx_state.specs.State.{Runs};
ghost use Rattle.tx_turn.specs.Beginning.{first_state};

use crate::page::moment_of;
use std::alloc::{AllocError, Global};
use std::mem;
use tx_eqtb::Eqtb;
use tx_expand::Expander;
use tx_files::Name;
use tx_hyphenate::Hyphenation;
use tx_list::{Stack, both};
use tx_machine::Date;
use tx_state::{Due, State};
use tx_tfm::Fonts;
use tx_word::Words;

/// The main file is to be asked for. Its only error is want of memory.
fn first_due(alloc: Global, main: &Name) -> Result<Stack<Due>, AllocError>
    ensures { IfOk result (λ due. due ≡ OpenMain main.now ∷ []) }
{
    let mut due = Stack::new(alloc);
    due.push(Due::OpenMain(main.clone()?.into_bytes()))?;
    Ok(due)
}

/// The first state, but for what is due in it. Its only error is want of memory.
fn blank(alloc: Global, date: &Date, main: &Name) -> Result<State, AllocError>
    requires { IsDate date.now }
    ensures state { IfOk result (λ s. state_of s ≡ record (first_state date.now main.now) { due = [] }) }
    ensures phase { IfOk result (λ s. s.phase ≡ Phase.Running) }
    ensures said { IfOk result (λ s. s.said ≡ []) }
{
    let words = Words::new(alloc, Fonts::new(alloc));
    let (name, (words, hyphenation)) = both(main.clone(), both(words, Hyphenation::new(alloc)))?;
    // (the table comes last, so that nothing drops one)
    let table = Eqtb::new(alloc, &moment_of(date))?;
    let expander = Expander::new(alloc, name.into_bytes());
    State::new(alloc, expander, words, table, hyphenation)
}

/// The first state of a run of this main file. Its only error is want of memory.
pub fn begin(alloc: Global, date: &Date, main: &Name) -> Result<State, AllocError>
    requires { IsDate date.now }
    ensures state { IfOk result (λ s. meaning_of s ≡ Runs (first_state date.now main.now)) }
    ensures said { IfOk result (λ s. s.said ≡ []) }
{
    let due = first_due(alloc, main)?;
    let mut s = blank(alloc, date, main)?;
    drop(mem::replace(&mut s.due, due));
    Ok(s)
}
