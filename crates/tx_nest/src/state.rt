//! What a mode keeps beside its list.
ghost use Rattle.std.specs.Prelude.{◌≡◌, ◌↔◌, IsTrue};
ghost use Rattle.tx_nest.specs.States as spec;

use crate::factor::SpaceFactor;
use tx_prim::Mode;

/// The depth that \prevdepth has where no leading is to come, -1000pt, in sp (TeX: The Program, section 212).
pub(crate) const IGNORE_DEPTH: i32 = -65_536_000;

/// A mode with what it keeps beside its list: \prevdepth in sp in vertical modes, \spacefactor in horizontal ones.
#[derive(Clone, Copy, PartialEq, Eq)]
pub enum ModeState {
    /// The pages' list.
    Vertical(i32),
    /// The list of a vertical box.
    InternalVertical(i32),
    /// The list of a paragraph.
    Horizontal(SpaceFactor),
    /// The list of a horizontal box.
    RestrictedHorizontal(SpaceFactor),
    /// A formula in a text.
    Math,
    /// A displayed formula.
    DisplayMath,
}

impl ModeState {
    /// What a mode keeps when its list begins.
    pub fn begun(mode: Mode) -> ModeState
        ensures { result ≡ spec.begun mode }
    {
        match mode {
            Mode::Vertical => ModeState::Vertical(IGNORE_DEPTH),
            Mode::InternalVertical => ModeState::InternalVertical(IGNORE_DEPTH),
            Mode::Horizontal => ModeState::Horizontal(SpaceFactor::plain()),
            Mode::RestrictedHorizontal => ModeState::RestrictedHorizontal(SpaceFactor::plain()),
            Mode::Math => ModeState::Math,
            Mode::DisplayMath => ModeState::DisplayMath,
        }
    }

    /// The mode.
    pub fn mode(self) -> Mode
        ensures { result ≡ spec.mode_of self }
    {
        match self {
            ModeState::Vertical(_) => Mode::Vertical,
            ModeState::InternalVertical(_) => Mode::InternalVertical,
            ModeState::Horizontal(_) => Mode::Horizontal,
            ModeState::RestrictedHorizontal(_) => Mode::RestrictedHorizontal,
            ModeState::Math => Mode::Math,
            ModeState::DisplayMath => Mode::DisplayMath,
        }
    }

    /// \prevdepth in sp; None exactly where the mode isn't vertical.
    pub fn prev_depth(self) -> Option<i32>
        ensures { result ≡ spec.prev_depth self }
    {
        match self {
            ModeState::Vertical(depth) | ModeState::InternalVertical(depth) => Some(depth),
            ModeState::Horizontal(_) | ModeState::RestrictedHorizontal(_) => None,
            ModeState::Math | ModeState::DisplayMath => None,
        }
    }

    /// \spacefactor; None exactly where the mode isn't horizontal.
    pub fn space_factor(self) -> Option<SpaceFactor>
        ensures { result ≡ spec.space_factor self }
    {
        match self {
            ModeState::Horizontal(factor) | ModeState::RestrictedHorizontal(factor) => Some(factor),
            ModeState::Vertical(_) | ModeState::InternalVertical(_) => None,
            ModeState::Math | ModeState::DisplayMath => None,
        }
    }

    /// The same mode with another \prevdepth, in sp; nothing changes where the mode isn't vertical.
    pub fn with_prev_depth(self, depth: i32) -> ModeState
        ensures { result ≡ spec.with_prev_depth self depth }
    {
        match self {
            ModeState::Vertical(_) => ModeState::Vertical(depth),
            ModeState::InternalVertical(_) => ModeState::InternalVertical(depth),
            ModeState::Horizontal(factor) => ModeState::Horizontal(factor),
            ModeState::RestrictedHorizontal(factor) => ModeState::RestrictedHorizontal(factor),
            ModeState::Math => ModeState::Math,
            ModeState::DisplayMath => ModeState::DisplayMath,
        }
    }

    /// The same mode with another \spacefactor; nothing changes where the mode isn't horizontal.
    pub fn with_space_factor(self, factor: SpaceFactor) -> ModeState
        ensures { result ≡ spec.with_space_factor self factor }
    {
        match self {
            ModeState::Vertical(depth) => ModeState::Vertical(depth),
            ModeState::InternalVertical(depth) => ModeState::InternalVertical(depth),
            ModeState::Horizontal(_) => ModeState::Horizontal(factor),
            ModeState::RestrictedHorizontal(_) => ModeState::RestrictedHorizontal(factor),
            ModeState::Math => ModeState::Math,
            ModeState::DisplayMath => ModeState::DisplayMath,
        }
    }

    /// What is kept behind a box of this depth, in sp.
    pub fn behind_box(self, depth: i32) -> ModeState
        ensures { result ≡ spec.behind_box self depth }
    {
        match self {
            ModeState::Vertical(_) => ModeState::Vertical(depth),
            ModeState::InternalVertical(_) => ModeState::InternalVertical(depth),
            ModeState::Horizontal(_) => ModeState::Horizontal(SpaceFactor::plain()),
            ModeState::RestrictedHorizontal(_) => ModeState::RestrictedHorizontal(
                SpaceFactor::plain(),
            ),
            ModeState::Math => ModeState::Math,
            ModeState::DisplayMath => ModeState::DisplayMath,
        }
    }

    /// What is kept behind a rule.
    pub(crate) fn behind_rule(self) -> ModeState
        ensures { result ≡ spec.behind_rule self }
    {
        self.behind_box(IGNORE_DEPTH)
    }
}
