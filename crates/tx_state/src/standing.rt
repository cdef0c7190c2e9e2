//! Where the reading of an alignment stands: the next command, and the level of braces (TeX: The Program, sections 309 and 785).
ghost use Rattle.std.specs.Prelude.{◌≡◌};
ghost use Rattle.tx_state.specs.Meanings.{state_of};
ghost use Rattle.tx_state.specs.Standing as spec;

use crate::state::State;
use tx_command::Head;

/// The level of braces where no alignment is read, or a row or an entry is to begin: so far from 0 that no braces of a document
/// reach that, at which entries end (`align_state` of TeX: The Program, sections 309 and 331).
pub const OUTSIDE: i64 = 1_000_000;

/// The next command stands in the mode of the list that is being built, behind this.
pub fn stand(s: &mut State, head: Head)
    ensures state { state_of s.new ≡ record (spec.in_mode (state_of s.old)) { head = head } }
    ensures phase { s.new.phase ≡ s.old.phase }
    ensures said { s.new.said ≡ s.old.said }
{
    s.scan.enter(s.lists.nest.innermost().mode());
    s.scan.begin_behind(head);
}

/// A row is to begin, or what stands between rows, or the alignment's end.
pub fn stand_before_row(s: &mut State)
    ensures state { state_of s.new ≡ spec.before_row (state_of s.old) }
    ensures phase { s.new.phase ≡ s.old.phase }
    ensures said { s.new.said ≡ s.old.said }
{
    stand(s, Head::Row);
    s.input.set_level(OUTSIDE);
}
