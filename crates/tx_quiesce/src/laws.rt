//! The laws on which reuse rests, each the contract of a function that does nothing: they are about the definitions alone,
//! and hold for every machine.
ghost use Rattle.tx_quiesce.specs.Laws.{SuffixLaw};
ghost use Rattle.tx_quiesce.specs.Reuse.{ReuseLaw};

use tx_machine::Machine;

/// From two equal states, with open files of equal names and equal bytes behind their offsets, where the rest asks only for
/// files that are equal in both, the same rest comes, up to the page limit.
pub fn suffix_law<M: Machine>()
    ensures { SuffixLaw M.formatter }
{}

/// The run on the changed files is the rows that are kept, what is formatted behind them up to the first meeting, and then the
/// rest of the old run, moved: cut at the page limit, and gone on with where the old run was cut off there too early.
pub fn reuse_law<M: Machine>()
    ensures { ReuseLaw M.formatter }
{}
