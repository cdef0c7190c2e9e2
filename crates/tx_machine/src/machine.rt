//! The machine, as a trait: what it asks, what it answers, and which laws it keeps.
ghost use Rattle.std.specs.Prelude.{◌≡◌, ◌≤◌, ◌↔◌, ℕ, List, [], ◌++◌, true, IsTrue, IfOk, OnOk, OnErr};
ghost use Rattle.tx_event.specs.declared.types.AskKind.{AskKind};
ghost use Rattle.tx_event.specs.Turns.{Ready, Awaits, fits};
ghost use Rattle.tx_machine.specs.Machine.{Formatter, IsLawful};
ghost use Rattle.tx_machine.specs.Plain.{HasPassed, HasRunOn, turns_of};
ghost use Rattle.tx_machine.specs.Ranges.{IsDate};
ghost use Rattle.tx_machine.specs.Steps.{raised};

use crate::steps::Steps;
use crate::types::{Date, Passed};
use std::alloc::{AllocError, Global};
use tx_bytes::Bytes;
use tx_event::{Event, Reply};
use tx_files::Name;

/// A machine that takes turns. What it does is the pure `formatter` on the meanings of its states; the bytes that the
/// transcript gains wait in the state, beside its meaning, until they are taken.
///
/// Each call that allocates may answer want of memory; a state that met it may only be dropped.
pub trait Machine {
    /// What a run goes from turn to turn with.
    type State: Drop;

    /// What a state means: plain data, equal exactly where nothing that follows can differ.
    ghost Meaning: { Type 0 };

    ghost meaning: { Self.State → Meaning };

    /// The bytes of the transcript that are still to be taken.
    ghost pending: { Self.State → List ℕ };

    /// All that the machine does, as functions on meanings.
    ghost formatter: { Formatter Meaning };

    /// The first state of a run of this main file.
    fn start(&self, alloc: Global, date: &Date, main: &Name) -> Result<Self::State, AllocError>
        requires { IsDate date.now }
        ensures state { IfOk result (λ s. meaning s ≡ formatter.start date.now main.now) }
        ensures pending { IfOk result (λ s. pending s ≡ []) };

    /// What the next turn costs, at least 1. It takes no memory.
    fn cost(&self, s: &Self::State) -> u64
        ensures { result ≡ formatter.cost (meaning s.now) };

    /// Takes one turn and counts it.
    fn turn(
        &self,
        alloc: Global,
        s: &mut Self::State,
        steps: &mut Steps,
    ) -> Result<Event, AllocError>
        requires { formatter.mode (meaning s.old) ≡ Ready }
        ensures event { IfOk result (λ event. event ≡ (formatter.step (meaning s.old)).event) }
        ensures state { OnOk result (meaning s.new ≡ (formatter.step (meaning s.old)).next) }
        ensures pending { OnOk result (pending s.new ≡ pending s.old ++ (formatter.step (meaning s.old)).said) }
        ensures steps { steps.new ≡ raised steps.old 1 };

    /// Takes turns at one go, at most so many, and counts them: each costs 1, and all but the last are nothing that the outside
    /// has to know, as most turns of TeX's main control are (TeX: The Program, section 1030). A machine may take none.
    fn run_on(
        &self,
        alloc: Global,
        s: &mut Self::State,
        most: u64,
        steps: &mut Steps,
    ) -> Result<Passed, AllocError>
        requires { formatter.mode (meaning s.old) ≡ Ready }
        ensures most { IfOk result (λ passed. turns_of passed ≤ most) }
        ensures turns { IfOk result (λ passed. HasRunOn formatter passed (meaning s.old) (meaning s.new) (pending s.old) (pending s.new)) }
        ensures steps { IfOk result (λ passed. steps.new ≡ raised steps.old (turns_of passed)) }
        ensures bound { OnErr result (HasPassed formatter most (meaning s.old) steps.old steps.new) };

    /// Takes the reply to what the state asked.
    fn answer(&self, alloc: Global, s: &mut Self::State, reply: &Reply) -> Result<(), AllocError>
        requires { (kind : AskKind) × (formatter.mode (meaning s.old) ≡ Awaits kind) × (fits kind reply.now ≡ true) }
        ensures state { OnOk result (meaning s.new ≡ formatter.take (meaning s.old) reply.now) }
        ensures pending { OnOk result (pending s.new ≡ pending s.old) };

    /// Hands out the bytes that the transcript gained since this was called last. It takes no memory.
    fn take_said(&self, alloc: Global, s: &mut Self::State) -> Bytes
        ensures said { result ≡ pending s.old }
        ensures pending { pending s.new ≡ [] }
        ensures state { meaning s.new ≡ meaning s.old };

    /// Whether nothing that follows can differ between two states. It takes no memory.
    fn same(&self, a: &Self::State, b: &Self::State) -> bool
        ensures { IsTrue result ↔ (meaning a.now ≡ meaning b.now) };

    /// A state that is equal to this one, its untaken bytes included, and stays so whatever is done to either.
    fn share(&self, alloc: Global, s: &Self::State) -> Result<Self::State, AllocError>
        ensures state { IfOk result (λ shared. meaning shared ≡ meaning s.now) }
        ensures pending { IfOk result (λ shared. pending shared ≡ pending s.now) };

    /// Turns cost something, and events and replies lead from mode to mode.
    ghost lawful: { IsLawful formatter };
}
