//! Modes, and what becomes of a command in each.
ghost use Rattle.std.specs.Prelude.{◌≡◌};
ghost use Rattle.tx_prim.specs.Modes.{holds, standing};

/// What TeX is building (The TeXbook, chapter 13).
#[derive(Clone, Copy, PartialEq, Eq)]
pub enum Mode {
    /// The pages' list.
    Vertical,
    /// The list of a vertical box.
    InternalVertical,
    /// The list of a paragraph.
    Horizontal,
    /// The list of a horizontal box.
    RestrictedHorizontal,
    /// A formula in a text.
    Math,
    /// A displayed formula.
    DisplayMath,
}

/// What a conditional tests of a mode (TeX: The Program, section 501).
#[derive(Clone, Copy, PartialEq, Eq)]
pub enum ModeTest {
    /// \ifvmode.
    Vertical,
    /// \ifhmode.
    Horizontal,
    /// \ifmmode.
    Math,
    /// \ifinner: the mode of a box's list, or of a formula in a text.
    Inner,
}

/// In which modes a command may stand.
#[derive(Clone, Copy, Debug)]
pub enum Modes {
    /// In all modes.
    All,
    /// In all modes but those of formulas.
    NotMath,
    /// In horizontal modes and formulas; in vertical modes it begins a paragraph, and stands in that.
    NotVertical,
    /// In horizontal modes; in vertical modes it begins a paragraph, and stands in that.
    InHorizontal,
    /// In vertical modes; in a paragraph it ends that first.
    InVertical,
    /// In vertical modes alone.
    OnlyVertical,
    /// In horizontal modes and formulas alone.
    OutsideVertical,
    /// In horizontal modes alone.
    OnlyHorizontal,
    /// On the pages' list alone; in a paragraph it ends that first.
    Pages,
    /// In formulas alone.
    Math,
    /// In none.
    Nowhere,
}

/// What becomes of a command in a mode.
#[derive(Clone, Copy, PartialEq, Eq, Debug)]
pub enum Standing {
    /// It is carried out.
    Stands,
    /// A paragraph is begun, in which it is carried out.
    BeginsParagraph,
    /// The paragraph is ended, as by \par, and then it is carried out.
    EndsParagraph,
    /// It ends the run, or is read again behind what that needs.
    EndsRun,
    /// It may not stand there.
    Refused,
}

impl ModeTest {
    /// Whether a mode passes the test.
    pub fn holds(self, mode: Mode) -> bool
        ensures { result ≡ holds self mode }
    {
        match self {
            ModeTest::Vertical => matches!(mode, Mode::Vertical | Mode::InternalVertical),
            ModeTest::Horizontal => matches!(mode, Mode::Horizontal | Mode::RestrictedHorizontal),
            ModeTest::Math => matches!(mode, Mode::Math | Mode::DisplayMath),
            ModeTest::Inner => matches!(
                mode,
                Mode::InternalVertical | Mode::RestrictedHorizontal | Mode::Math
            ),
        }
    }
}

impl Modes {
    /// What becomes in a mode of a command that may stand in these modes.
    pub fn standing(self, mode: Mode) -> Standing
        ensures { result ≡ standing self mode }
    {
        match (self, mode) {
            (Modes::NotMath, Mode::Math | Mode::DisplayMath) => Standing::Refused,
            (Modes::NotVertical, Mode::Vertical | Mode::InternalVertical) => {
                Standing::BeginsParagraph
            }
            (Modes::InHorizontal, Mode::Vertical | Mode::InternalVertical) => {
                Standing::BeginsParagraph
            }
            (Modes::InHorizontal, Mode::Math | Mode::DisplayMath) => Standing::Refused,
            (Modes::InHorizontal, _) => Standing::Stands,
            (Modes::InVertical, Mode::Vertical | Mode::InternalVertical) => Standing::Stands,
            (Modes::InVertical, Mode::Horizontal) => Standing::EndsParagraph,
            (Modes::InVertical, _) => Standing::Refused,
            (Modes::OnlyVertical, Mode::Vertical | Mode::InternalVertical) => Standing::Stands,
            (Modes::OnlyVertical, _) => Standing::Refused,
            (Modes::OutsideVertical, Mode::Vertical | Mode::InternalVertical) => Standing::Refused,
            (Modes::OutsideVertical, _) => Standing::Stands,
            (Modes::OnlyHorizontal, Mode::Horizontal | Mode::RestrictedHorizontal) => {
                Standing::Stands
            }
            (Modes::OnlyHorizontal, _) => Standing::Refused,
            (Modes::Pages, Mode::Horizontal) => Standing::EndsParagraph,
            (Modes::All | Modes::NotMath | Modes::NotVertical, _) => Standing::Stands,
            (Modes::Pages, Mode::Vertical) => Standing::EndsRun,
            (Modes::Pages, _) => Standing::Refused,
            (Modes::Math, Mode::Math | Mode::DisplayMath) => Standing::Stands,
            (Modes::Math, _) | (Modes::Nowhere, _) => Standing::Refused,
        }
    }
}
