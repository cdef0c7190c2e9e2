//! The laws on which resuming rests, each the contract of a function that does nothing: they are about the definitions
//! alone, and hold for every machine.
ghost use Rattle.tx_checkpoint.specs.Laws.{RowsLaw, ResumeLaw, PrefixLaw, ResumedLaw, StandsLaw};

use tx_machine::Machine;

/// The fresh run is the one that its rows tell.
pub fn rows_law<M: Machine>()
    ensures { RowsLaw M.formatter }
{}

/// Where formatting resumes is the last row up to which the changes leave all reads as they are.
pub fn resume_law<M: Machine>()
    ensures { ResumeLaw M.formatter }
{}

/// Rows whose reads, with those of all rows before them, changes leave are the rows of the run on the changed files.
pub fn prefix_law<M: Machine>()
    ensures { PrefixLaw M.formatter }
{}

/// The run on the changed files is these rows, and then the run from the state and the open files after the last of them.
pub fn resumed_law<M: Machine>()
    ensures { ResumedLaw M.formatter }
{}

/// Where changes leave all reads of a run, the run on the changed files is the same, its end included.
pub fn stands_law<M: Machine>()
    ensures { StandsLaw M.formatter }
{}
