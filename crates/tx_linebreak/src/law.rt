//! Why one chain for each candidate is enough.
ghost use Rattle.tx_linebreak.specs.Kept.{OneIsEnough};
ghost use Rattle.tx_linebreak.specs.Lines.{Attempt};

/// In every pass over every list: of all chains, none beats the best one of those that are kept where only the best chain of
/// each candidate is kept, the least demerits before the greatest steps; and where none of these is left, there is none. Two
/// candidates are one where only their line numbers differ, and no further line has a special shape.
pub fn one_chain_for_each_candidate_is_enough()
    ensures { (a : Attempt) → OneIsEnough a }
{}
