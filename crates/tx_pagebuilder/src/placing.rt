//! What one node makes of a page's measures.
ghost use Rattle.std.specs.Prelude.{◌≡◌, IfOk};
ghost use Rattle.tx_insert.specs.Sums.{IsSmall};
ghost use Rattle.tx_pagebuilder.specs.Placing as spec;

use crate::error::PageError;
use crate::measures::{Built, Measures, Placed};
use crate::sizes::wide;
use tx_insert::{
    Break, Kind, SplitError, Sums, Trial, badness_at, better, penalty_at, shrinks_endlessly, stays,
    trial_of, with_item,
};

impl From<SplitError> for PageError {
    ghost from_gives = { λ e r. r ≡ spec.of_splitting e };

    fn from(error: SplitError) -> Self {
        match error {
            SplitError::SizeOutOfRange => PageError::SizeOutOfRange,
            SplitError::EndlessShrink => PageError::EndlessShrink,
            SplitError::OutOfMemory => PageError::OutOfMemory,
        }
    }
}

/// The break at a place of the page with this penalty.
fn break_at(measures: &Measures, place: usize, penalty: i32) -> Trial
    requires { spec.IsMeasured measures.now }
    ensures { result ≡ spec.break_at measures.now place penalty }
{
    let goal = i64::from(measures.goal);
    let badness = badness_at(goal, &measures.sums);
    trial_of(place, goal, penalty, measures.insert_penalties, badness)
}

/// The best break, once there is another one.
fn best_with(best: Option<Break>, later: Break) -> Break
    ensures { result ≡ spec.best_with best later }
{
    match best {
        None => later,
        Some(best) => better(best, later),
    }
}

fn with_break(measures: &Measures, made: Break) -> Measures
    requires { spec.IsMeasured measures.now }
    ensures value { result ≡ spec.with_break measures.now made }
    ensures measured { spec.IsMeasured result }
{
    let mut more = *measures;
    more.best = Some(best_with(measures.best, made));
    more
}

/// The measures with these sums behind one node more, of this kind, or why there are none.
fn with_sums(
    measures: &Measures,
    kind: &Kind,
    sums: Result<Sums, SplitError>,
) -> Result<Measures, PageError>
    requires measured { spec.IsMeasured measures.now }
    requires small { IfOk sums IsSmall }
    ensures value { result ≡ spec.with_sums measures.now kind.now sums }
    ensures measured { IfOk result spec.IsMeasured }
{
    let mut more = *measures;
    more.sums = sums?;
    more.after_solid = stays(kind);
    Ok(more)
}

/// The measures with one node more, of this kind.
fn added(measures: &Measures, kind: &Kind) -> Result<Measures, PageError>
    requires { spec.IsMeasured measures.now }
    ensures value { result ≡ spec.added measures.now kind.now }
    ensures measured { IfOk result spec.IsMeasured }
{
    if shrinks_endlessly(kind) {
        return Err(PageError::EndlessShrink);
    }
    let sums = with_item(wide(measures.most), &measures.sums, kind);
    with_sums(measures, kind, sums)
}

/// The measures with a node at which the page doesn't fire.
fn going(measures: &Measures, kind: &Kind) -> Result<Placed, PageError>
    requires { spec.IsMeasured measures.now }
    ensures value { result ≡ spec.going (spec.added measures.now kind.now) }
    ensures measured { IfOk result (λ placed. spec.IsMeasured placed.measures) }
{
    Ok(Placed {
        measures: added(measures, kind)?,
        built: Built::Went,
    })
}

/// The measures with a node at a break.
fn placed_at(measures: &Measures, kind: &Kind, trial: Trial) -> Result<Placed, PageError>
    requires { spec.IsMeasured measures.now }
    ensures value { result ≡ spec.placed_at measures.now kind.now trial }
    ensures measured { IfOk result (λ placed. spec.IsMeasured placed.measures) }
{
    let more = with_break(measures, trial.made);
    if trial.stops {
        return Ok(Placed {
            measures: more,
            built: Built::Fires,
        });
    }
    going(&more, kind)
}

/// The measures with a node of this kind at a place of the page, which comes before glue or doesn't.
#[tactic(auto, unfolding(crate::specs::Placing::placed))]
pub(crate) fn place_kind(
    measures: &Measures,
    place: usize,
    before_glue: bool,
    kind: &Kind,
) -> Result<Placed, PageError>
    requires { spec.IsMeasured measures.now }
    ensures value { result ≡ spec.placed measures.now place before_glue kind.now }
    ensures measured { IfOk result (λ placed. spec.IsMeasured placed.measures) }
{
    match penalty_at(measures.after_solid, kind, before_glue) {
        None => going(measures, kind),
        Some(penalty) => placed_at(measures, kind, break_at(measures, place, penalty)),
    }
}
