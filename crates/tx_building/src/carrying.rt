//! What a command of boxes answered is taken over by the state (TeX: The Program, part 47).
ghost use Rattle.std.specs.Prelude.{◌≡◌, ◌++◌, [], IfOk, OnOk};
ghost use Rattle.tx_box.specs.Effects.{told};
ghost use Rattle.tx_nest.specs.States.{mode_of};
ghost use Rattle.tx_state.specs.declared.parts.Phase.{Phase};
ghost use Rattle.tx_state.specs.Meanings.{IsStepped, state_of};
ghost use Rattle.tx_building.specs.Carrying as spec;

use std::alloc::AllocError;
use tx_box::{Done, Lists};
use tx_bytes::Bytes;
use tx_command::{CommandScan, Head};
use tx_event::Event;
use tx_state::{State, fail, push_work};

/// The next command stands in the mode of the list that is being built, and the transcript gets these bytes. Its only error is want
/// of memory.
fn stand(
    scan: &mut CommandScan,
    lists: &Lists,
    said: &mut Bytes,
    report: &[u8],
) -> Result<(), AllocError>
    ensures scan { scan.new ≡ record { mode = mode_of lists.now.nest.innermost.state; head = scan.old.head; taken = [] } }
    ensures said { OnOk result (said.new ≡ said.old ++ report.now) }
{
    scan.enter(lists.nest.innermost().mode());
    said.append(report)
}

/// What a command of boxes answered is taken over: work that is due, which comes first, and the mode of the list that is being built
/// now; with these bytes for the transcript, which gets them also where the run ends by an error. Err is want of memory.
pub fn carry(s: &mut State, done: Done, report: &[u8]) -> Result<Event, AllocError>
    requires { s.old.phase ≡ Phase.Running }
    ensures { IfOk result (λ event. IsStepped (spec.carried_telling (state_of s.old) report.now (told done s.old.lists s.old.table)) s.old event s.new) }
{
    match done {
        Done::Whole => {
            stand(&mut s.scan, &s.lists, &mut s.said, report)?;
            Ok(Event::Went)
        }
        Done::Due(work) => {
            push_work(&mut s.due, work)?;
            stand(&mut s.scan, &s.lists, &mut s.said, report)?;
            Ok(Event::Went)
        }
        // (glue is to follow, in the mode of the list that is being built now)
        Done::Leads(kind, repeated) => {
            s.scan.begin_behind(Head::LeadingBox(kind, repeated));
            stand(&mut s.scan, &s.lists, &mut s.said, report)?;
            Ok(Event::Went)
        }
        Done::Wrong(error) => {
            s.said.append(report)?;
            Ok(fail(s, error))
        }
    }
}
