//! The machine behind the seam.
ghost use Rattle.std.specs.Prelude.{◌≡◌, List, ℕ};
ghost use Rattle.line_machine.specs.State.{Meaning, meaning_of};
ghost use Rattle.line_machine.specs.Turns.{line_machine};
ghost use Rattle.line_machine.specs.Lawful.{line-machine-lawful};

use crate::state::{Phase, State, same_date};
use crate::turn::{self, date_parameters, hear, pass_spaces};
use std::alloc::{AllocError, Global};
use std::mem;
use tx_bytes::Bytes;
use tx_event::{Event, Reply};
use tx_files::Name;
use tx_machine::{Date, Machine, Passed, Steps};

/// The machine of which each line is a page. It asks for the main file to be opened and for its lines; spaces at a line's
/// beginning are passed over, a turn each; a line that has bytes behind them and before its LF is a page with these as its body,
/// and its first byte is said; a line `.` ends the run.
#[derive(Clone, Copy)]
pub struct LineMachine;

impl Machine for LineMachine {
    type State = State;

    ghost Meaning = { Meaning };

    ghost meaning = { meaning_of };

    ghost pending = { λ s. s.said };

    ghost formatter = { line_machine };

    ghost lawful = { line-machine-lawful };

    #[tactic(auto, unfolding(crate::specs::Turns::line_machine))]
    fn start(&self, alloc: Global, date: &Date, main: &Name) -> Result<State, AllocError> {
        Ok(State {
            date: date_parameters(date),
            phase: Phase::Begins(main.clone()?),
            said: Bytes::new(alloc),
        })
    }

    #[tactic(auto, unfolding(crate::specs::Turns::line_machine))]
    fn cost(&self, _s: &State) -> u64 {
        1
    }

    #[tactic(auto, unfolding(crate::specs::Turns::line_machine))]
    fn turn(&self, alloc: Global, s: &mut State, steps: &mut Steps) -> Result<Event, AllocError> {
        steps.tick();
        turn::turn(alloc, s)
    }

    fn run_on(
        &self,
        alloc: Global,
        s: &mut State,
        most: u64,
        steps: &mut Steps,
    ) -> Result<Passed, AllocError> {
        let turns = pass_spaces(alloc, s, most, steps)?;
        Ok(Passed { turns, last: None })
    }

    #[tactic(auto, unfolding(crate::specs::Turns::line_machine))]
    fn answer(&self, alloc: Global, s: &mut State, reply: &Reply) -> Result<(), AllocError> {
        s.phase = hear(alloc, reply)?;
        Ok(())
    }

    #[tactic(auto, unfolding(crate::specs::Turns::line_machine))]
    fn take_said(&self, alloc: Global, s: &mut State) -> Bytes {
        mem::replace(&mut s.said, Bytes::new(alloc))
    }

    fn same(&self, a: &State, b: &State) -> bool {
        same_date(&a.date, &b.date) && a.phase.same(&b.phase)
    }

    fn share(&self, _alloc: Global, s: &State) -> Result<State, AllocError> {
        Ok(State {
            date: s.date,
            phase: s.phase.copy()?,
            said: s.said.clone()?,
        })
    }
}
