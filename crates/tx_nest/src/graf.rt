//! How many lines \prevgraf counts.
ghost use Rattle.std.specs.Prelude.{◌≡◌};
ghost use Rattle.tx_nest.specs.Grafs as spec;

use crate::list::ModeList;
use crate::state::ModeState;
use tx_prim::Mode;

/// The greatest \prevgraf.
const MOST_LINES: usize = 2_147_483_647;

/// \prevgraf where a list begins in one with so much of it.
pub(crate) fn begun_graf(mode: Mode, around: u32) -> u32
    ensures { result ≡ spec.begun_graf mode around }
{
    match mode {
        Mode::Vertical | Mode::InternalVertical | Mode::Horizontal => 0,
        Mode::RestrictedHorizontal | Mode::Math | Mode::DisplayMath => around,
    }
}

/// A list goes on behind one of this mode that has ended in it, with so much \prevgraf.
pub fn go_on_behind(list: &mut ModeList, ended: ModeState, graf: u32)
    ensures { list.new ≡ spec.behind_list ended graf list.old }
{
    match ended {
        ModeState::Vertical(_) | ModeState::InternalVertical(_) => {}
        ModeState::Horizontal(_) | ModeState::RestrictedHorizontal(_) => list.prev_graf = graf,
        ModeState::Math | ModeState::DisplayMath => list.prev_graf = graf,
    }
}

/// Sets \prevgraf.
pub fn set_prev_graf(list: &mut ModeList, graf: u32)
    ensures { list.new ≡ spec.with_graf list.old graf }
{
    list.prev_graf = graf;
}

/// A number as \prevgraf; None exactly where it is negative.
pub fn graf_of(number: i32) -> Option<u32>
    ensures { result ≡ spec.graf_of number }
{
    if number < 0 {
        None
    } else {
        Some(number.unsigned_abs())
    }
}

/// \prevgraf behind so many lines more; None exactly where it would leave its range.
pub fn raised_graf(graf: u32, lines: usize) -> Option<u32>
    ensures { result ≡ spec.raised_graf graf lines }
{
    let raised = (graf as usize).saturating_add(lines);
    if raised <= MOST_LINES {
        Some(raised as u32)
    } else {
        None
    }
}
