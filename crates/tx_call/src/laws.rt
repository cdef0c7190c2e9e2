//! What holds of all requests. These calls do nothing: their contracts are the theorems.
ghost use Rattle.std.specs.Prelude.{List, length, ◌+◌, ◌*◌, ◌≤◌};
ghost use Rattle.tx_script.specs.declared.command.Command.{Command};
ghost use Rattle.tx_call.specs.Answers.{AgreesWithScript, Event, all_came};
ghost use Rattle.tx_call.specs.Sitting.{Sitting};

use tx_machine::Machine;

/// Behind a request that is a script's command a document is that of the script behind the command, with the same counts; and where no
/// earlier run is kept, the request is answered as the script answers its command, with the same turns.
pub fn requests_agree_with_scripts<M: Machine>()
    ensures { (t : Sitting) (c : Command) → AgreesWithScript M.formatter t c }
{}

/// However many requests come in and whatever they ask for, each takes no more turns than a run of the document may.
pub fn requests_take_no_more_turns<M: Machine>()
    ensures { (t : Sitting) (events : List Event) → (all_came M.formatter t events).turns ≤ length events * ((t.standing.base.limits.pages + 1) * t.standing.base.limits.budget) }
{}
