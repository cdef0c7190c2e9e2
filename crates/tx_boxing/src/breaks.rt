//! The texts of \discretionary begin (TeX: The Program, section 1117).
ghost use Rattle.std.specs.Prelude.{◌≡◌, [], IfOk};
ghost use Rattle.tx_boxing.specs.Breaks as spec;
ghost use Rattle.tx_state.specs.declared.parts.Phase.{Phase};
ghost use Rattle.tx_state.specs.Meanings.{IsStepped, state_of};

use std::alloc::{AllocError, Global};
use tx_building::carry;
use tx_event::Event;
use tx_prim::BreakText;
use tx_state::State;

/// A text of \discretionary begins. Err is want of memory; the event may end the run by an error, as `beginning_break` says.
pub fn begin_break(alloc: Global, s: &mut State, text: BreakText) -> Result<Event, AllocError>
    requires running { s.old.phase ≡ Phase.Running }
    requires between { s.old.scan.taken ≡ [] }
    ensures { IfOk result (λ event. IsStepped (spec.beginning_break (state_of s.old) text) s.old event s.new) }
{
    s.scan.begin_fresh();
    let done = tx_box::begin_break(alloc, &mut s.lists, &mut s.table, text)?;
    carry(s, done, b"")
}
