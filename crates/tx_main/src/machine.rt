//! TeX behind the seam (TeX: The Program, section 1030).
ghost use Rattle.tx_state.specs.State.{Meaning};
ghost use Rattle.tx_state.specs.Meanings.{meaning_of};
ghost use Rattle.tx_main.specs.Turns.{tex};
ghost use Rattle.tx_main.specs.Lawful.{tex-lawful};

use crate::stomach::Tex;
use std::alloc::{AllocError, Global};
use std::mem;
use tx_bytes::Bytes;
use tx_event::{Event, Reply};
use tx_files::Name;
use tx_machine::{Date, Machine, Passed, Steps};
use tx_state::{Phase, State, same_state, share_state};

impl Machine for Tex {
    type State = State;

    ghost Meaning = { Meaning };

    ghost meaning = { meaning_of };

    ghost pending = { λ s. s.said };

    ghost formatter = { tex };

    ghost lawful = { tex-lawful };

    #[tactic(auto, unfolding(crate::specs::Turns::tex, tx_turn::specs::Turns::tex_with))]
    fn start(&self, alloc: Global, date: &Date, main: &Name) -> Result<State, AllocError> {
        tx_turn::begin(alloc, date, main)
    }

    #[tactic(auto, unfolding(crate::specs::Turns::tex, tx_turn::specs::Turns::tex_with))]
    fn cost(&self, s: &State) -> u64 {
        match s.phase {
            Phase::Running => tx_turn::due_cost(&s.due),
            _ => 1,
        }
    }

    #[tactic(auto, unfolding(crate::specs::Turns::tex, tx_turn::specs::Turns::tex_with))]
    fn turn(&self, alloc: Global, s: &mut State, steps: &mut Steps) -> Result<Event, AllocError> {
        steps.tick();
        tx_turn::take_turn::<Tex>(alloc, s)
    }

    #[tactic(auto, unfolding(crate::specs::Turns::tex, tx_turn::specs::Turns::tex_with))]
    fn run_on(
        &self,
        alloc: Global,
        s: &mut State,
        most: u64,
        steps: &mut Steps,
    ) -> Result<Passed, AllocError> {
        tx_turn::run_on::<Tex>(alloc, s, most, steps)
    }

    #[tactic(auto, unfolding(crate::specs::Turns::tex, tx_turn::specs::Turns::tex_with))]
    fn answer(&self, alloc: Global, s: &mut State, reply: &Reply) -> Result<(), AllocError> {
        tx_turn::answer(alloc, s, reply)
    }

    #[tactic(auto, unfolding(crate::specs::Turns::tex))]
    fn take_said(&self, alloc: Global, s: &mut State) -> Bytes {
        mem::replace(&mut s.said, Bytes::new(alloc))
    }

    fn same(&self, a: &State, b: &State) -> bool {
        same_state(a, b)
    }

    fn share(&self, alloc: Global, s: &State) -> Result<State, AllocError> {
        share_state(alloc, s)
    }
}
