//! Where a vertical list is broken.
ghost use Rattle.std.specs.Prelude.{◌≡◌, ◌≤◌, length, IfOk};
ghost use Rattle.tx_num.specs.Glue.{IsDimension};
ghost use Rattle.tx_node.specs.Nodes.{list_of};
ghost use Rattle.tx_insert.specs.Breaks as spec;
ghost use Rattle.tx_insert.specs.Sums.{IsSmall};

use crate::error::SplitError;
use crate::kind::{begins_with_glue, is_endless, kind_of, penalty_at, stays};
use crate::sums::{Sums, no_sums, with_item};
use crate::trial::{Break, Trial, better, no_break, trial_at};
use tx_node::Node;
use tx_num::{Scaled, fits};

/// The break, whose size has to be a dimension.
fn sized(made: Break) -> Result<Break, SplitError>
    ensures value { result ≡ spec.sized made }
    ensures same { IfOk result (λ b. b ≡ made) }
    ensures small { IfOk result (λ b. IsDimension b.size) }
{
    if fits(made.size) {
        Ok(made)
    } else {
        Err(SplitError::SizeOutOfRange)
    }
}

/// The best break so far and whether the search stops, behind a place at which a break may be legal.
fn with_place(best: Break, goal: Scaled, place: usize, penalty: Option<i32>, sums: &Sums) -> Trial
    requires goal { IsDimension goal }
    requires sums { IsSmall sums.now }
    requires before { best.place ≤ place }
    ensures value { result ≡ spec.with_place best goal place penalty sums.now }
    ensures within { result.made.place ≤ place }
{
    match penalty {
        None => Trial {
            made: best,
            stops: false,
        },
        Some(penalty) => {
            let trial = trial_at(goal, place, penalty, sums);
            Trial {
                made: better(best, trial.made),
                stops: trial.stops,
            }
        }
    }
}

/// The last of the cheapest breaks that are tried.
fn found(list: &[Node], goal: Scaled, maxdepth: Scaled) -> Result<Break, SplitError>
    requires goal { IsDimension goal }
    requires most { IsDimension maxdepth }
    ensures value { result ≡ spec.found (list_of list.now) goal maxdepth }
    ensures within { IfOk result (λ made. made.place ≤ length list.now) }
{
    let mut sums = no_sums();
    let mut best = no_break();
    let mut after_solid = false;
    for place in 0..list.len() {
        let kind = kind_of(&list[place]);
        let before_glue = begins_with_glue(&list[place + 1..]);
        let penalty = penalty_at(after_solid, &kind, before_glue);
        let tried = with_place(best, goal, place, penalty, &sums);
        best = tried.made;
        if tried.stops {
            return Ok(best);
        }
        sums = with_item(maxdepth, &sums, &kind)?;
        after_solid = stays(&kind);
    }
    let end = with_place(best, goal, list.len(), Some(-10_000), &sums);
    Ok(end.made)
}

/// Where a vertical list is best broken whose part before the break is to be `goal` sp high, with a depth of at most `maxdepth`
/// sp (TeX: The Program, section 970): of its legal breaks, the end among them, up to the first that is forced or at which it
/// is overfull, the last one of least cost. `EndlessShrink` exactly where glue of the list has infinite shrink that isn't 0;
/// else `SizeOutOfRange` exactly where a sum over the items up to where the search stops, or the size of the break, is no
/// dimension. No other error comes, and no memory is taken.
pub fn vbreak(list: &[Node], goal: Scaled, maxdepth: Scaled) -> Result<Break, SplitError>
    requires goal { IsDimension goal }
    requires most { IsDimension maxdepth }
    ensures value { result ≡ spec.break_of (list_of list.now) goal maxdepth }
    ensures within { IfOk result (λ made. made.place ≤ length list.now) }
    ensures small { IfOk result (λ made. IsDimension made.size) }
{
    if is_endless(list) {
        return Err(SplitError::EndlessShrink);
    }
    sized(found(list, goal, maxdepth)?)
}
