//! What is done with a document that is edited, however its changes are made.
ghost use Rattle.std.specs.Prelude.{◌≡◌, ℕ, ◌≤◌, List, length, IfOk, OnOk, OnErr};
ghost use Rattle.tx_dvi.specs.Dvi.{dvi};
ghost use Rattle.tx_machine.specs.Steps.{raised};
ghost use Rattle.tx_checkpoint.specs.Locate.{located};
ghost use Rattle.tx_session.specs.Held.{fresh, rows_of, transcript};
ghost use Rattle.tx_session.specs.Refusals.{IsBatchAnswer, IsOutside};
ghost use Rattle.tx_session.specs.Standing.{Standing, now, made_of, report_since, work_since, turns_since};

use crate::refusal::Refusal;
use crate::report::Report;
use std::alloc::AllocError;
use tx_bytes::Bytes;
use tx_checkpoint::Located;
use tx_files::{Change, Name};
use tx_machine::{End, Machine, Steps};

/// A document that is edited. All that it shows is that of the fresh run on its files as they are now.
pub trait Document<M: Machine> {
    /// Where it stands.
    ghost standing: { Self → Standing };

    /// How many changes may be made of an earlier run.
    ghost longest: { ℕ };

    /// Makes a list of changes, all or none: its answer is what came of it, or why it was refused. After a refusal everything is as
    /// before.
    fn batch(&mut self, changes: &[Change], steps: &mut Steps) -> Result<Report, Refusal>
        ensures answer { IsBatchAnswer (now (standing self.old)).files changes.now result }
        ensures made { OnOk result (standing self.new ≡ made_of M.formatter longest (standing self.old) changes.now) }
        ensures report { IfOk result (λ answer. answer ≡ report_since M.formatter (standing self.old) changes.now) }
        ensures counted { OnOk result (steps.new ≡ raised steps.old (work_since M.formatter (standing self.old) changes.now)) }
        ensures refused { OnErr result (standing self.new ≡ standing self.old) }
        ensures outside { IsOutside result → steps.new ≡ steps.old }
        ensures most { steps.new ≤ raised steps.old (turns_since M.formatter (standing self.old) changes.now) };

    /// By which page what stands at a place of a file is first read; it takes no memory.
    fn locate(&self, name: &Name, place: u64) -> Located
        ensures { result ≡ located (rows_of M.formatter (now (standing self.now))) name.now place };

    /// How many pages there are.
    fn pages(&self) -> usize
        ensures { result ≡ length (fresh M.formatter (now (standing self.now))).ran.pages };

    /// How the run ended.
    fn end(&self) -> &End
        ensures { result.now ≡ (fresh M.formatter (now (standing self.now))).ran.end };

    /// The whole transcript, lent.
    fn said(&self) -> &[u8]
        ensures { result.now ≡ transcript (fresh M.formatter (now (standing self.now))).ran };

    /// The DVI file of the pages; where there is no page there is no file, and so no byte. Its only error is want of memory.
    fn dvi(&self) -> Result<Bytes, AllocError>
        ensures { IfOk result (λ file. file ≡ dvi (fresh M.formatter (now (standing self.now))).ran.pages) };
}
