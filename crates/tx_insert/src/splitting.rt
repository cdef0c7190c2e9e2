//! Splitting a vertical list.
ghost use Rattle.std.specs.Prelude.{◌≡◌, ◌≢◌, ◌≤◌, length, IfOk, IfErr, Ok, Err};
ghost use Rattle.tx_num.specs.Glue.{IsDimension};
ghost use Rattle.tx_node.specs.Nodes.{list_of};
ghost use Rattle.tx_insert.specs.declared.error.SplitError.TheVariants.{OutOfMemory};
ghost use Rattle.tx_insert.specs.Splits as spec;

use crate::answer::Split;
use crate::breaking::vbreak;
use crate::error::SplitError;
use crate::marks::{first_mark, last_mark};
use crate::pruning::remaining;
use std::alloc::{AllocError, Global};
use tx_node::{Node, Nodes};
use tx_num::{Glue, Scaled};

/// What stands before a place of a list, with its marks, and this list that remains behind it. Its only error is want of memory.
fn with_marks(alloc: Global, above: &[Node], rest: Nodes) -> Result<Split, AllocError>
    ensures { IfOk result (λ split. Ok split ≡ spec.parts_of (list_of above.now) (Ok rest)) }
{
    Ok(Split {
        first: first_mark(above)?,
        last: last_mark(above)?,
        top: Nodes::share_of(alloc, above)?,
        rest,
    })
}

/// Divides a vertical list at a place, as \vsplit does at its break (TeX: The Program, sections 968 and 979): what stands
/// before it, what remains behind it, as `remaining` has it, and the marks of what stood before it. `SizeOutOfRange` exactly
/// where `remaining` answers it; the other error is want of memory.
#[tactic(auto, using(crate::proofs::Parts::taken, crate::proofs::Parts::dropped))]
pub fn divide(alloc: Global, list: &[Node], place: usize, skip: &Glue) -> Result<Split, SplitError>
    requires { place ≤ length list.now }
    ensures parts { IfOk result (λ split. spec.divided (list_of list.now) place skip.now ≡ Ok split) }
    ensures error { IfErr result (λ e. e ≢ OutOfMemory → spec.divided (list_of list.now) place skip.now ≡ Err e) }
{
    let (above, below) = list.split_at(place);
    let rest = remaining(alloc, skip, below)?;
    Ok(with_marks(alloc, above, rest)?)
}

/// Splits a vertical list, as \vsplit does (TeX: The Program, section 977): what stands before the break that `vbreak` finds for a
/// height of `goal` sp and a depth of at most `maxdepth` sp; what remains behind it, whose glue, kerns and penalties before its
/// first box or rule vanish, and before that comes `topskip` less its height, at least 0; and the marks of what stood before
/// the break. `EndlessShrink` exactly where `vbreak` answers it; `SizeOutOfRange` exactly where `vbreak` answers it, and where
/// the glue before the first box or rule is no dimension. No box is made, so none can nest too deep.
pub fn split(
    alloc: Global,
    list: Nodes,
    goal: Scaled,
    maxdepth: Scaled,
    topskip: Glue,
) -> Result<Split, SplitError>
    requires goal { IsDimension goal }
    requires most { IsDimension maxdepth }
    ensures split { IfOk result (λ made. spec.split_of list goal maxdepth topskip ≡ Ok made) }
    ensures error { IfErr result (λ e. e ≢ OutOfMemory → spec.split_of list goal maxdepth topskip ≡ Err e) }
{
    let made = vbreak(list.as_slice(), goal, maxdepth)?;
    divide(alloc, list.as_slice(), made.place, &topskip)
}
