//! Groups begin and end, with what \aftergroup keeps (TeX: The Program, sections 269 to 284 and 326).
ghost use Rattle.std.specs.Prelude.{◌≡◌, Some, IfOk, OnOk};
ghost use Rattle.tx_eqtb.specs.declared.groups.GroupKind.{GroupKind};
ghost use Rattle.tx_eqtb.specs.Stack.{kind_of};
ghost use Rattle.tx_state.specs.declared.parts.Phase.{Phase};
ghost use Rattle.tx_state.specs.Groups as spec;
ghost use Rattle.tx_state.specs.Meanings.{IsStepped, state_of};

use crate::ending::fail;
use crate::state::State;
use std::alloc::AllocError;
use tx_eqtb::{GroupKind, OpenError};
use tx_event::Event;
use tx_parts::release_kept;
use tx_seen::TexError;

/// Opens a group of this kind, unless 255 are open; the answer is whether it did. Err is want of memory.
pub fn open_group(s: &mut State, kind: GroupKind) -> Result<bool, AllocError>
    ensures opened { IfOk result (λ opened. spec.IsOpened kind (state_of s.old) opened (state_of s.new)) }
    ensures phase { OnOk result (s.new.phase ≡ s.old.phase) }
    ensures said { OnOk result (s.new.said ≡ s.old.said) }
{
    match s.table.open_group(kind) {
        Ok(()) => Ok(true),
        Err(OpenError::TooMany) => Ok(false),
        Err(OpenError::OutOfMemory) => Err(AllocError),
    }
}

/// The same, and nothing else; the run ends by `TooManyGroups` exactly where 255 are open. Err is want of memory.
pub fn open(s: &mut State, kind: GroupKind) -> Result<Event, AllocError>
    requires { s.old.phase ≡ Phase.Running }
    ensures { IfOk result (λ event. IsStepped (spec.opening (state_of s.old) kind (state_of s.old)) s.old event s.new) }
{
    if open_group(s, kind)? {
        Ok(Event::Went)
    } else {
        Ok(fail(s, TexError::TooManyGroups))
    }
}

/// Leaves the innermost group, of this kind: what it changed comes back, and what \aftergroup keeps for its end is read next.
/// Its only error is want of memory.
pub fn leave_group(s: &mut State, kind: GroupKind) -> Result<(), AllocError>
    requires { kind_of s.old.table ≡ Some kind }
    ensures state { OnOk result (state_of s.new ≡ spec.closing (state_of s.old)) }
    ensures phase { OnOk result (s.new.phase ≡ s.old.phase) }
    ensures said { OnOk result (s.new.said ≡ s.old.said) }
{
    let groups = s.table.depth();
    release_kept(&mut s.after_groups, &mut s.input, groups)?;
    match s.table.close_group(kind) {
        Ok(()) => Ok(()),
        Err(_) => unreachable!(),
    }
}
