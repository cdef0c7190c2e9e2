//! What the kinds of boxes differ by (TeX: The Program, sections 1083 to 1086).
ghost use Rattle.std.specs.Prelude.{◌≡◌};
ghost use Rattle.tx_box.specs.Building as spec;

use tx_eqtb::GroupKind;
use tx_num::GREATEST_DIMENSION;
use tx_pack::Goal;
use tx_prim::{BoxKind, Mode, TokenParameter};
use tx_shape::{BoxContext, BoxGoal};

/// The mode of a box's list.
pub(crate) fn mode_in(kind: BoxKind) -> Mode
    ensures { result ≡ spec.mode_in kind }
{
    match kind {
        BoxKind::Horizontal => Mode::RestrictedHorizontal,
        BoxKind::Vertical | BoxKind::Top => Mode::InternalVertical,
    }
}

/// The group of a box.
pub(crate) fn group_of(kind: BoxKind) -> GroupKind
    ensures { result ≡ spec.group_of kind }
{
    match kind {
        BoxKind::Horizontal => GroupKind::HorizontalBox,
        BoxKind::Vertical => GroupKind::VerticalBox,
        BoxKind::Top => GroupKind::TopBox,
    }
}

/// The list of tokens with which a box's list begins.
pub fn every_in(kind: BoxKind) -> TokenParameter
    ensures { result ≡ spec.every_in kind }
{
    match kind {
        BoxKind::Horizontal => TokenParameter::Everyhbox,
        BoxKind::Vertical | BoxKind::Top => TokenParameter::Everyvbox,
    }
}

/// What a list is packed to.
pub fn goal_of(goal: BoxGoal) -> Goal
    ensures { result ≡ spec.goal_of goal }
{
    match goal {
        BoxGoal::Natural => Goal::Natural,
        BoxGoal::To(size) => Goal::To(i64::from(size)),
        BoxGoal::Spread(more) => Goal::Spread(i64::from(more)),
    }
}

/// The size of a goal.
pub fn size_in(goal: Goal) -> i64
    ensures { result ≡ spec.size_in goal }
{
    match goal {
        Goal::Natural => 0,
        Goal::To(size) | Goal::Spread(size) => size,
    }
}

/// How deep a vertical list may be, in sp, by what becomes of it.
pub(crate) fn most_in(context: BoxContext, most: i64) -> i64
    ensures { result ≡ spec.most_in context most }
{
    match context {
        BoxContext::Append(_) | BoxContext::Register(_) | BoxContext::Ship => most,
        BoxContext::Lead(_) => most,
        BoxContext::Adjust | BoxContext::Center => GREATEST_DIMENSION,
    }
}
