//! The session: a document, what the run on it gave, and edits of it.
ghost use Rattle.std.specs.Prelude.{◌≡◌, ◌∷◌, [], true, ◌≤◌, ◌+◌, ◌*◌, length, IfOk, OnOk, OnErr};
ghost use Rattle.tx_dvi.specs.Dvi.{dvi};
ghost use Rattle.tx_files.specs.Changes.{IsOutside as IsPast};
ghost use Rattle.tx_files.specs.Edits.{fits_in};
ghost use Rattle.tx_files.specs.declared.edit.Change.TheVariants as change;
ghost use Rattle.tx_machine.specs.Ranges.{IsDate, AreLimits};
ghost use Rattle.tx_machine.specs.Steps.{raised};
ghost use Rattle.tx_checkpoint.specs.Locate.{located};
ghost use Rattle.tx_session.specs.Held.{fresh, rows_of, transcript, body_of, changed_session, edited_session, after, replayed};
ghost use Rattle.tx_session.specs.Locating.{AllLeaveBy};
ghost use Rattle.tx_session.specs.Refusals.{IsEditAnswer, IsBatchAnswer, IsOutside};
ghost use Rattle.tx_session.specs.Standing.{settled};
ghost use Rattle.tx_session.specs.Report as spec;
ghost use Rattle.tx_session.specs.Report.{report, work, turns_of_changes, turns_of_edit, turns_of_edits, IsStopped};

use crate::changing::change_files;
use crate::document::Document;
use crate::kept::Made;
use crate::made::{make_after, make_anew};
use crate::refusal::Refusal;
use crate::report::Report;
use std::alloc::{AllocError, Global};
use std::marker::Model;
use std::slice;
use tx_bytes::Bytes;
use tx_checkpoint::Located;
use tx_dvi::assemble;
use tx_files::{Change, Edit, FileSet, Name};
use tx_machine::{Date, End, Limits, Machine, Steps};

/// The report of changes, by how many pages there are, after how many formatting resumed, and how many were reused.
pub(crate) fn report_of(pages: usize, resumed: usize, reused: usize) -> Report
    requires { resumed + reused ≤ pages }
    ensures { result ≡ spec.report_of pages resumed reused }
{
    Report {
        pages,
        resumed,
        formatted: pages - resumed - reused,
        reused,
    }
}

/// A document and what the run on it gave. Contracts see its files, its main file's name, its date and its limits: all
/// that it shows is that of the fresh run on these.
#[derive(Drop)]
pub struct Session<M: Machine> {
    alloc: Global,
    machine: M,
    /// The files as they are edited by now.
    files: FileSet,
    /// The name of the main file.
    main: Name,
    /// The moment that the document sees.
    date: Date,
    /// How far its runs may go.
    limits: Limits,
    /// What the run on these files gave.
    made: Made<M::State>,
}

impl<M: Machine> Model for Session<M> {
    ghost use Rattle.tx_session.specs.Held.{Held};
    ghost use Rattle.tx_session.specs.HeldCode.{held_code};
    ghost use Rattle.tx_session.specs.Shows.{Shows};

    ghost Value = { Held };

    ghost coded = { held_code };

    ghost view = { λ s. record { files = s.files; main = s.main; date = s.date; limits = s.limits } };

    ghost invariant = { λ s. Shows M.formatter M.meaning M.pending (record { files = s.files; main = s.main; date = s.date; limits = s.limits }) s.made };
}

impl<M: Machine> Session<M> {
    /// Opens a document: makes the run of its main file. Its only error is want of memory.
    pub fn open(
        alloc: Global,
        machine: M,
        files: FileSet,
        main: Name,
        date: Date,
        limits: Limits,
        steps: &mut Steps,
    ) -> Result<Session<M>, AllocError>
    where
        M: Drop,
        requires dated { IsDate date }
        requires limited { AreLimits limits }
        ensures held { IfOk result (λ session. session ≡ record { files = files; main = main; date = date; limits = limits }) }
        ensures counted { IfOk result (λ session. steps.new ≡ raised steps.old (fresh M.formatter session).turns) }

        // Whatever the files say, and also where memory was wanting.
        ensures most { steps.new ≤ raised steps.old (fresh M.formatter (record { files = files; main = main; date = date; limits = limits })).turns }
        ensures bound { steps.new ≤ steps.old + (length (fresh M.formatter (record { files = files; main = main; date = date; limits = limits })).ran.pages + 1) * limits.budget }
    {
        let made = make_anew(alloc, &machine, &files, &main, &date, &limits, steps)?;
        Ok(Session {
            alloc,
            machine,
            files,
            main,
            date,
            limits,
            made,
        })
    }

    /// Makes a list of changes, all or none: its answer is what came of it, or why it was refused. Where they leave all that the
    /// run read, everything stands, and no turn is taken. Else formatting resumes after the last page up to which they leave all
    /// reads, and goes on until a new page meets an old one, from which on the old ones are reused. What is formatted is made
    /// beside the old pages, and replaces them in the end. After a refusal everything is as before. Where one change alone goes past
    /// the end of its file, that is answered before memory is asked for; of more changes, which are made in a copy, want of memory may
    /// be answered though one of them does.
    pub fn batch(&mut self, changes: &[Change], steps: &mut Steps) -> Result<Report, Refusal>
        ensures answer { IsBatchAnswer self.old.files changes.now result }
        ensures held { OnOk result (self.new ≡ changed_session self.old changes.now) }
        ensures report { IfOk result (λ answer. answer ≡ report M.formatter self.old changes.now) }
        ensures counted { OnOk result (steps.new ≡ raised steps.old (work M.formatter self.old changes.now)) }
        ensures refused { OnErr result (self.new ≡ self.old) }
        ensures outside { IsOutside result → steps.new ≡ steps.old }

        // Whatever the files say, and also where memory was wanting.
        ensures most { steps.new ≤ raised steps.old (turns_of_changes M.formatter self.old changes.now) }
        ensures bound { steps.new ≤ steps.old + (length (fresh M.formatter (changed_session self.old changes.now)).ran.pages + 1) * self.old.limits.budget }
    {
        let before = change_files(&mut self.files, changes)?;
        let kept = self.made.rows.resume_at(changes);
        if self.made.rows.stands(kept, changes) {
            drop(before);
            let pages = self.made.rows.pages.as_slice().len();
            return Ok(report_of(pages, pages, 0));
        }
        match make_after(
            self.alloc,
            &self.machine,
            &self.files,
            changes,
            &mut self.made,
            kept as u32,
            &self.main,
            &self.date,
            &self.limits,
            steps,
        ) {
            Ok(reused) => {
                drop(before);
                let pages = self.made.rows.pages.as_slice().len();
                Ok(report_of(pages, kept, reused))
            }
            Err(_) => {
                self.files.take_back(before);
                Err(Refusal::OutOfMemory)
            }
        }
    }

    /// How long the file of an edit is, where the edit goes past its end.
    fn outside(&self, e: &Edit) -> Option<u64>
        ensures { IsPast self.now.files e.now result }
    {
        self.files.outside(e)
    }

    /// Makes an edit: it is a batch of one change, but where it goes past the end of its file the answer says so of the edit.
    pub fn edit(&mut self, e: &Edit, steps: &mut Steps) -> Result<Report, Refusal>
        ensures answer { IsEditAnswer self.old.files e.now result }
        ensures held { OnOk result (self.new ≡ edited_session self.old e.now) }
        ensures report { IfOk result (λ answer. answer ≡ report M.formatter self.old (change.Edit e.now ∷ [])) }
        ensures counted { OnOk result (steps.new ≡ raised steps.old (work M.formatter self.old (change.Edit e.now ∷ []))) }
        ensures refused { OnErr result (self.new ≡ self.old) }
        ensures outside { IsOutside result → steps.new ≡ steps.old }

        // Whatever the files say, and also where memory was wanting.
        ensures most { steps.new ≤ raised steps.old (turns_of_edit M.formatter self.old e.now) }
        ensures bound { steps.new ≤ steps.old + (length (fresh M.formatter (edited_session self.old e.now)).ran.pages + 1) * self.old.limits.budget }
    {
        let outside = self.outside(e);
        if let Some(len) = outside {
            return Err(Refusal::Outside { len });
        }
        let copy = e.clone()?;
        let change = Change::Edit(copy);
        self.batch(slice::from_ref(&change), steps)
    }

    /// Makes an edit, or leaves it out where it doesn't fit. Memory is wanting only for one that fits.
    fn edit_if_it_fits(&mut self, e: &Edit, steps: &mut Steps) -> Result<(), AllocError>
        ensures held { OnOk result (self.new ≡ after self.old e.now) }
        ensures counted { OnOk result (steps.new ≡ raised steps.old (turns_of_edit M.formatter self.old e.now)) }
        ensures err { OnErr result (self.new ≡ self.old) }
        ensures fits { OnErr result (fits_in self.old.files e.now ≡ true) }
        ensures most { steps.new ≤ raised steps.old (turns_of_edit M.formatter self.old e.now) }
    {
        match self.edit(e, steps) {
            Ok(_) => Ok(()),
            Err(Refusal::Outside { .. }) => Ok(()),
            Err(Refusal::OutOfMemory) => Err(AllocError),
            Err(Refusal::BatchOutside { .. }) => unreachable!(),
        }
    }

    /// Makes edits, one after the other; those that don't fit are left out. Its only error is want of memory, for an edit that fits,
    /// which leaves the session as the edits before had made it, and takes no more turns than those edits and this one.
    pub fn replay(&mut self, edits: &[Edit], steps: &mut Steps) -> Result<(), AllocError>
        ensures all { OnOk result (self.new ≡ replayed self.old edits.now) }
        ensures counted { OnOk result (steps.new ≡ raised steps.old (turns_of_edits M.formatter self.old edits.now)) }
        ensures stopped { OnErr result (IsStopped M.formatter edits.now self.old self.new steps.old steps.new) }
    {
        for e in edits {
            self.edit_if_it_fits(e, steps)?;
        }
        Ok(())
    }

    /// By which page what stands at a place of a file is first read; it takes no memory. An edit there, if it is accepted, leaves
    /// the pages before that one and their transcript; where the place is read behind the last page alone it leaves all pages, and
    /// where it isn't read at all the whole run, without a turn.
    pub fn locate(&self, name: &Name, place: u64) -> Located
        ensures located { result ≡ located (rows_of M.formatter self.now) name.now place }
        ensures leaves { AllLeaveBy M.formatter self.now name.now place result }
    {
        self.made.rows.locate(name, place)
    }

    /// How many pages there are.
    pub fn pages(&self) -> usize
        ensures { result ≡ length (fresh M.formatter self.now).ran.pages }
    {
        self.made.rows.pages.as_slice().len()
    }

    /// The commands of the n-th page, counted from 1, lent.
    pub fn body(&self, n: usize) -> &[u8]
        requires { (1 ≤ n) × (n ≤ length (fresh M.formatter self.now).ran.pages) }
        ensures { result.now ≡ body_of (fresh M.formatter self.now).ran.pages n }
    {
        self.made.rows.pages[n - 1].body()
    }

    /// How the run ended.
    pub fn end(&self) -> &End
        ensures { result.now ≡ (fresh M.formatter self.now).ran.end }
    {
        &self.made.rows.last.end
    }

    /// The whole transcript, lent.
    pub fn said(&self) -> &[u8]
        ensures { result.now ≡ transcript (fresh M.formatter self.now).ran }
    {
        self.made.said.as_slice()
    }

    /// The DVI file of the pages; where there is no page there is no file, and so no byte. Its only error is want of
    /// memory.
    pub fn dvi(&self) -> Result<Bytes, AllocError>
        ensures { IfOk result (λ file. file ≡ dvi (fresh M.formatter self.now).ran.pages) }
    {
        assemble(self.alloc, self.made.rows.pages.as_slice())
    }
}

impl<M: Machine> Document<M> for Session<M> {
    ghost standing = { λ s. settled s };

    ghost longest = { 0 };

    fn batch(&mut self, changes: &[Change], steps: &mut Steps) -> Result<Report, Refusal> {
        Session::batch(self, changes, steps)
    }

    fn locate(&self, name: &Name, place: u64) -> Located {
        Session::locate(self, name, place)
    }

    fn pages(&self) -> usize {
        Session::pages(self)
    }

    fn end(&self) -> &End {
        Session::end(self)
    }

    fn said(&self) -> &[u8] {
        Session::said(self)
    }

    fn dvi(&self) -> Result<Bytes, AllocError> {
        Session::dvi(self)
    }
}
