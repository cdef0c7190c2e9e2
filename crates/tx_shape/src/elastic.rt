//! Glue that is appended (TeX: The Program, sections 162 and 1060).
ghost use Rattle.std.specs.Prelude.{◌≡◌};
ghost use Rattle.tx_scan.specs.Mapped.{mapped};
ghost use Rattle.tx_shape.specs.Boxes as boxes;
ghost use Rattle.tx_shape.specs.Rests.{Begins};

use crate::scans::{ShapeScan, Stage};
use crate::types::Shaped;
use tx_num::Glue;
use tx_prim::GlueForm;
use tx_seen::Fed;

/// As much of an infinite unit as one, in 65536ths.
const ONE: i64 = 65536;

/// The orders of fil and fill.
const FIL: u8 = 1;

const FILL: u8 = 2;

/// The glue of \hfil and its kin; None where glue follows.
fn standing_glue(form: GlueForm) -> Option<Glue>
    ensures { result ≡ boxes.standing_glue form }
{
    match form {
        GlueForm::Skip => None,
        GlueForm::Fil => Some(Glue::new(0, ONE, FIL, 0, 0)),
        GlueForm::Fill => Some(Glue::new(0, ONE, FILL, 0, 0)),
        GlueForm::Both => Some(Glue::new(0, ONE, FIL, ONE, FIL)),
        GlueForm::Negative => Some(Glue::new(0, -ONE, FIL, 0, 0)),
    }
}

/// Glue that was read.
#[inline(always)]
pub(crate) fn skipped(fed: Fed<Glue>) -> Fed<Shaped>
    ensures { result ≡ mapped Shaped.Skip fed }
{
    match fed {
        Fed::More(want) => Fed::More(want),
        Fed::Need(kind) => Fed::Need(kind),
        Fed::Done(glue, back) => Fed::Done(Shaped::Skip(glue), back),
        Fed::Wrong(error) => Fed::Wrong(error),
    }
}

/// Glue in mu that was read.
pub(crate) fn math_skipped(fed: Fed<Glue>) -> Fed<Shaped>
    ensures { result ≡ mapped Shaped.MathSkip fed }
{
    match fed {
        Fed::More(want) => Fed::More(want),
        Fed::Need(kind) => Fed::Need(kind),
        Fed::Done(glue, back) => Fed::Done(Shaped::MathSkip(glue), back),
        Fed::Wrong(error) => Fed::Wrong(error),
    }
}

impl ShapeScan {
    /// \mskip.
    pub(crate) fn begin_math_glue(&mut self) -> Fed<Shaped>
        ensures { Begins boxes.math_skipping self.new result }
    {
        self.glue.restart(true);
        self.on(Stage::MathGlue)
    }

    /// \hskip, \vskip or their kin.
    pub(crate) fn begin_glue(&mut self, form: GlueForm) -> Fed<Shaped>
        ensures { Begins (λ more. boxes.skipping form more) self.new result }
    {
        match standing_glue(form) {
            Some(glue) => Fed::Done(Shaped::Skip(glue), 0),
            None => {
                self.glue.restart(false);
                self.on(Stage::Glue)
            }
        }
    }
}
