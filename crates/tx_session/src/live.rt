//! A document that is typed: its runs are cut off again and again where what is typed is no TeX yet, and the pages behind are found
//! again once it is.
ghost use Rattle.std.specs.Prelude.{◌≡◌, ◌↔◌, ◌∷◌, [], ◌≤◌, ◌++◌, true, length, take, Some, IsNone, IfSome, IfOk, OnOk, OnErr};
ghost use Rattle.std.specs.FinMap.{insert};
ghost use Rattle.std.specs.List.{All};
ghost use Rattle.std.specs.Option.{option_copied};
ghost use Rattle.tx_bytes.specs.Files.{content};
ghost use Rattle.tx_differing.specs.Differing as differing;
ghost use Rattle.tx_dvi.specs.Dvi.{fonts_of};
ghost use Rattle.tx_dvi.specs.Page.{IsNamed};
ghost use Rattle.tx_files.specs.Edits.{edited, fits_in};
ghost use Rattle.tx_files.specs.TakenBack.{CanTakeBack, taken_back};
ghost use Rattle.tx_machine.specs.Ranges.{IsDate, AreLimits};
ghost use Rattle.tx_machine.specs.Steps.{raised};
ghost use Rattle.tx_session.specs.Cut.{base_of, since_of};
ghost use Rattle.tx_session.specs.Held.{fresh};
ghost use Rattle.tx_session.specs.Pages.{nth_of, page_of, piece_of};
ghost use Rattle.tx_session.specs.Standing.{now, settled};

use crate::changing::change_files;
use crate::cutting::make;
use crate::document::Document;
use crate::kept::{Come, Cut, Earlier, Made};
use crate::made::make_anew;
use crate::refusal::Refusal;
use crate::report::Report;
use crate::session::report_of;
use std::alloc::{AllocError, Global};
use std::marker::Model;
use std::mem;
use tx_bytes::Bytes;
use tx_checkpoint::{Located, locate_between};
use tx_differing::edit_to;
use tx_dvi::{FontDefinition, PageBody, assemble};
use tx_dviselect::{append_fonts, page_file};
use tx_files::{Before, Change, Edit, FileSet, Name};
use tx_list::Items;
use tx_machine::{Date, End, Limits, Machine, Steps};

/// A copy of a change. Its only error is want of memory.
fn copy_of(change: &Change) -> Result<Change, AllocError>
    ensures { IfOk result (λ copy. copy ≡ change.now) }
{
    match change {
        Change::Edit(e) => Ok(Change::Edit(e.clone()?)),
        Change::Remove(name) => Ok(Change::Remove(name.clone()?)),
    }
}

/// Appends copies of changes.
fn append_copies(copies: &mut Items<Change>, changes: &[Change]) -> Result<(), AllocError>
    ensures { OnOk result (copies.new ≡ copies.old ++ changes.now) }
{
    for change in changes {
        let copy = copy_of(change)?;
        copies.push(copy)?;
    }
    Ok(())
}

/// Appends copies of the changes that were made since an earlier run.
fn append_since<S>(
    copies: &mut Items<Change>,
    earlier: &Option<Earlier<S>>,
) -> Result<(), AllocError>
    ensures { OnOk result (copies.new ≡ copies.old ++ since_of earlier.now) }
{
    match earlier {
        None => Ok(()),
        Some(earlier) => append_copies(copies, earlier.since.as_slice()),
    }
}

/// All changes since the run of which changes are made, and these behind them, as copies.
fn all_changes<S>(
    alloc: Global,
    earlier: &Option<Earlier<S>>,
    changes: &[Change],
) -> Result<Items<Change>, AllocError>
    ensures { IfOk result (λ all. all ≡ since_of earlier.now ++ changes.now) }
{
    let mut all = Items::new(alloc);
    append_since(&mut all, earlier)?;
    append_copies(&mut all, changes)?;
    Ok(all)
}

/// A copy of all files. Its only error is want of memory.
fn copied(files: &mut FileSet) -> Result<FileSet, AllocError>
    ensures copy { IfOk result (λ copy. copy ≡ files.old) }
    ensures same { files.new ≡ files.old }
{
    // No change at all is made beside the files, which are what it is taken back by.
    match files.change_all(&[]) {
        Ok(Before::All(copy)) => Ok(copy),
        Ok(before) => {
            files.take_back(before);
            Err(AllocError)
        }
        Err(_) => Err(AllocError),
    }
}

/// The files before changes, beside the changed ones. After want of memory the changes are taken back.
fn before_of(files: &mut FileSet, before: Before) -> Result<FileSet, AllocError>
    requires { CanTakeBack files.old before }
    ensures base { IfOk result (λ base. base ≡ taken_back files.old before) }
    ensures now { OnOk result (files.new ≡ files.old) }
    ensures err { OnErr result (files.new ≡ taken_back files.old before) }
{
    match copied(files) {
        Ok(mut base) => {
            base.take_back(before);
            Ok(base)
        }
        Err(error) => {
            files.take_back(before);
            Err(error)
        }
    }
}

/// Keeps a run that was cut off beside the run of which changes are made, whose files are those before the last ones unless it is an
/// earlier one already. After want of memory the last changes are taken back.
fn keep<S: Drop>(
    files: &mut FileSet,
    before: Before,
    earlier: &mut Option<Earlier<S>>,
    since: Items<Change>,
    cut: Cut<S>,
) -> Result<(), AllocError>
    requires { CanTakeBack files.old before }
    ensures now { OnOk result (files.new ≡ files.old) }
    ensures kept { OnOk result (earlier.new ≡ Some (record { files = base_of (taken_back files.old before) earlier.old; since = since; cut = cut })) }
    ensures err { OnErr result ((files.new ≡ taken_back files.old before) × (earlier.new ≡ earlier.old)) }
{
    match earlier {
        Some(kept) => {
            kept.since = since;
            kept.cut = cut;
            Ok(())
        }
        None => match before_of(files, before) {
            Ok(base) => {
                *earlier = Some(Earlier {
                    files: base,
                    since,
                    cut,
                });
                Ok(())
            }
            Err(error) => {
                drop(since);
                drop(cut);
                Err(error)
            }
        },
    }
}

/// Appends pages, which are shared.
fn append_shared(shared: &mut Vec<PageBody>, pages: &[PageBody]) -> Result<(), AllocError>
    ensures { OnOk result (shared.new.items ≡ shared.old.items ++ pages.now) }
{
    for page in pages {
        let page = page.clone()?;
        shared.push(page)?;
    }
    Ok(())
}

/// The value of this number, counted from 1, of some values and those that follow them.
fn nth<'a, T>(first: &'a [T], others: &'a [T], number: u64) -> Option<&'a T>
    ensures { option_copied result ≡ nth_of (first.now ++ others.now) number }
{
    if number == 0 {
        return None;
    }
    let at = number - 1;
    let count = first.len() as u64;
    if at < count {
        return Some(&first[at as usize]);
    }
    let behind = at - count;
    if behind < others.len() as u64 {
        return Some(&others[behind as usize]);
    }
    None
}

/// A document that is typed. Where an edit leads to a run that is cut off, the last run that ended by the end of its text is kept,
/// and the next edit is made of that one, together with all changes since: so what they leave of its pages is found again.
#[derive(Drop)]
pub struct Live<M: Machine> {
    alloc: Global,
    machine: M,
    /// The files as they are now.
    files: FileSet,
    /// The name of the main file.
    main: Name,
    /// The moment that the document sees.
    date: Date,
    /// How far its runs may go.
    limits: Limits,
    /// What the run gave of which changes are made.
    made: Made<M::State>,
    /// Where that is an earlier run than the last one: what led to the last one.
    earlier: Option<Earlier<M::State>>,
}

impl<M: Machine> Model for Live<M> {
    ghost use Rattle.tx_session.specs.Standing.{Standing};
    ghost use Rattle.tx_session.specs.StandingCode.{standing_code};
    ghost use Rattle.tx_session.specs.Cut.{standing_of, ShowsLive};

    ghost Value = { Standing };

    ghost coded = { standing_code };

    ghost view = { λ s. standing_of (record { files = s.files; main = s.main; date = s.date; limits = s.limits }) s.earlier };

    ghost invariant = { λ s. ShowsLive M.formatter M.meaning M.pending (record { files = s.files; main = s.main; date = s.date; limits = s.limits }) s.made s.earlier };
}

impl<M: Machine> Live<M> {
    /// Opens a document: makes the run of its main file. Its only error is want of memory.
    pub fn open(
        alloc: Global,
        machine: M,
        files: FileSet,
        main: Name,
        date: Date,
        limits: Limits,
        steps: &mut Steps,
    ) -> Result<Live<M>, AllocError>
    where
        M: Drop,
        requires dated { IsDate date }
        requires limited { AreLimits limits }
        ensures held { IfOk result (λ live. live ≡ settled (record { files = files; main = main; date = date; limits = limits })) }
        ensures counted { IfOk result (λ live. steps.new ≡ raised steps.old (fresh M.formatter (now live)).turns) }

        // Whatever the files say, and also where memory was wanting.
        ensures most { steps.new ≤ raised steps.old (fresh M.formatter (record { files = files; main = main; date = date; limits = limits })).turns }
    {
        let made = make_anew(alloc, &machine, &files, &main, &date, &limits, steps)?;
        Ok(Live {
            alloc,
            machine,
            files,
            main,
            date,
            limits,
            made,
            earlier: None,
        })
    }

    /// Its pages: the first ones, and those that follow them.
    fn shown(&self) -> (&[PageBody], &[PageBody])
        ensures { result.0.now ++ result.1.now ≡ (fresh M.formatter (now self.now)).ran.pages }
    {
        let pages = self.made.rows.pages.as_slice();
        match &self.earlier {
            None => pages.split_at(pages.len()),
            Some(earlier) => {
                let cut = &earlier.cut;
                (&pages[..cut.kept], cut.part.pages.as_slice())
            }
        }
    }

    /// The pieces of the transcript that its pages brought: those of the first ones, and those of the pages that follow them.
    fn pieces(&self) -> (&[Bytes], &[Bytes])
        ensures { result.0.now ++ result.1.now ≡ (fresh M.formatter (now self.now)).ran.pieces }
    {
        let pieces = self.made.rows.pieces.as_slice();
        match &self.earlier {
            None => pieces.split_at(pieces.len()),
            Some(earlier) => {
                let cut = &earlier.cut;
                (&pieces[..cut.kept], cut.part.pieces.as_slice())
            }
        }
    }

    /// The fonts that the first pages define, so many pages.
    fn fonts_before(&self, count: usize) -> Result<Items<FontDefinition>, AllocError>
        requires { count ≤ length (fresh M.formatter (now self.now)).ran.pages }
        ensures fonts { IfOk result (λ fonts. fonts ≡ fonts_of (take count (fresh M.formatter (now self.now)).ran.pages)) }
        ensures names { IfOk result (All IsNamed) }
    {
        let (first, others) = self.shown();
        let mut fonts = Items::new(self.alloc);
        if count <= first.len() {
            append_fonts(self.alloc, &mut fonts, &first[..count])?;
            return Ok(fonts);
        }
        append_fonts(self.alloc, &mut fonts, first)?;
        append_fonts(self.alloc, &mut fonts, &others[..count - first.len()])?;
        Ok(fonts)
    }

    /// The page of this number, counted from 1, as a DVI file of its own; None exactly where there is no such page. Its only error is
    /// want of memory.
    pub fn page_file(&self, number: u64) -> Result<Option<Bytes>, AllocError>
        ensures { IfOk result (λ file. file ≡ page_of (fresh M.formatter (now self.now)).ran.pages number) }
    {
        let (first, others) = self.shown();
        let Some(page) = nth(first, others, number) else {
            return Ok(None);
        };
        let fonts = self.fonts_before(number as usize - 1)?;
        Ok(Some(page_file(self.alloc, fonts.as_slice(), page)?))
    }

    /// What the page of this number, counted from 1, brought to the transcript, lent; None exactly where there is no such page.
    pub fn piece(&self, number: u64) -> Option<&Bytes>
        ensures { option_copied result ≡ piece_of (fresh M.formatter (now self.now)).ran.pieces number }
    {
        let (first, others) = self.pieces();
        nth(first, others, number)
    }

    /// The edit that gives the file of this name these contents, or makes it; None exactly where it has them. Its only error is want
    /// of memory.
    pub fn edit_to(&self, name: &Name, contents: &[u8]) -> Result<Option<Edit>, AllocError>
        ensures edit { IfOk result (λ edit. edit ≡ differing.edit_to (now self.now).files name.now contents.now) }
        ensures none { IfOk result (λ edit. IsNone edit ↔ (content (now self.now).files name.now ≡ Some contents.now)) }
        ensures fits { IfOk result (λ edit. IfSome edit (λ e. fits_in (now self.now).files e ≡ true)) }
        ensures gives { IfOk result (λ edit. IfSome edit (λ e. edited (now self.now).files e ≡ insert (now self.now).files name.now contents.now)) }
    {
        edit_to(self.alloc, &self.files, name, contents)
    }
}

impl<M: Machine> Document<M> for Live<M> {
    ghost standing = { λ s. s };

    ghost longest = { 1000 };

    fn batch(&mut self, changes: &[Change], steps: &mut Steps) -> Result<Report, Refusal> {
        if changes.is_empty() {
            let pages = self.pages();
            return Ok(report_of(pages, pages, 0));
        }
        let before = change_files(&mut self.files, changes)?;
        let Ok(all) = all_changes(self.alloc, &self.earlier, changes) else {
            self.files.take_back(before);
            return Err(Refusal::OutOfMemory);
        };
        match make(
            self.alloc,
            &self.machine,
            &self.files,
            all.as_slice(),
            &mut self.made,
            &self.main,
            &self.date,
            &self.limits,
            steps,
        ) {
            Ok(Come::Settled(report)) => {
                drop(before);
                drop(all);
                drop(mem::replace(&mut self.earlier, None));
                Ok(report)
            }
            Ok(Come::Beside { report, cut }) => {
                keep(&mut self.files, before, &mut self.earlier, all, cut)?;
                Ok(report)
            }
            Err(_) => {
                drop(all);
                self.files.take_back(before);
                Err(Refusal::OutOfMemory)
            }
        }
    }

    fn locate(&self, name: &Name, place: u64) -> Located {
        let rows = &self.made.rows;
        match &self.earlier {
            None => rows.locate(name, place),
            Some(earlier) => {
                let cut = &earlier.cut;
                locate_between(
                    &rows.rows.as_slice()[..cut.kept],
                    cut.part.rows.as_slice(),
                    &cut.last,
                    name,
                    place,
                )
            }
        }
    }

    fn pages(&self) -> usize {
        let (first, others) = self.shown();
        first.len() + others.len()
    }

    fn end(&self) -> &End {
        match &self.earlier {
            None => &self.made.rows.last.end,
            Some(earlier) => &earlier.cut.last.end,
        }
    }

    fn said(&self) -> &[u8] {
        match &self.earlier {
            None => self.made.said.as_slice(),
            Some(earlier) => earlier.cut.said.as_slice(),
        }
    }

    fn dvi(&self) -> Result<Bytes, AllocError> {
        let (first, others) = self.shown();
        if others.is_empty() {
            return assemble(self.alloc, first);
        }
        let mut pages = Vec::new(self.alloc);
        append_shared(&mut pages, first)?;
        append_shared(&mut pages, others)?;
        assemble(self.alloc, pages.as_slice())
    }
}
