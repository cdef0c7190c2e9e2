//! The fresh run: a document from its start to its end, with no checkpoint and no reuse.
ghost use Rattle.std.specs.Prelude.{◌≡◌, ◌≤◌, ◌+◌, ◌*◌, [], length, take, IfOk, OnOk};
ghost use Rattle.tx_files.specs.Lines.{line_count};
ghost use Rattle.tx_event.specs.Turns.{Ready};
ghost use Rattle.tx_machine.specs.Opens.{bytes_of};
ghost use Rattle.tx_machine.specs.Ranges.{IsDate, AreLimits};
ghost use Rattle.tx_machine.specs.Run.{run, run_from, end_of};
ghost use Rattle.tx_machine.specs.Steps.{raised};

use crate::lists::{Opens, Pages, Pieces};
use crate::machine::Machine;
use crate::opens::bytes_of;
use crate::spot::{Closed, Spot};
use crate::steps::Steps;
use crate::turn::format_page;
use crate::types::{Close, Date, End, Limits, OpenFile, Ran};
use std::alloc::{AllocError, Global};
use tx_bytes::Bytes;
use tx_event::Stop;
use tx_files::{FileSet, Name, Seen, line_count};

/// How many lines the bytes of an open file before its offset make up.
fn line_of(files: &FileSet, file: &OpenFile) -> u64
    ensures { result ≡ line_count (take file.now.offset (bytes_of files.now file.now.name)) }
{
    let bytes = bytes_of(files, &file.name);
    match bytes.get(..file.offset as usize) {
        Some(read) => line_count(read),
        None => line_count(bytes),
    }
}

/// How a run ends where the machine stops: an error is in the line of the innermost open file.
pub fn end_of(alloc: Global, files: &FileSet, opens: &Opens, stop: Stop) -> Result<End, AllocError>
    ensures { IfOk result (λ end. end ≡ end_of files.now opens.now stop) }
{
    match stop {
        Stop::End => Ok(End::End),
        Stop::Error(code) => match opens.innermost() {
            None => Ok(End::Error {
                code,
                name: None,
                line: 0,
            }),
            Some(file) => Ok(End::Error {
                code,
                name: Some(file.name.clone()?),
                line: line_of(files, file),
            }),
        },
    }
}

/// The run from a state on, for so many pages at most.
fn run_pages<M: Machine>(
    alloc: Global,
    machine: &M,
    files: &FileSet,
    spot: &mut Spot<M::State>,
    seen: &mut Seen,
    limits: &Limits,
    steps: &mut Steps,
) -> Result<Ran, AllocError>
    requires ready { M.formatter.mode (M.meaning spot.old.state) ≡ Ready }
    requires taken { M.pending spot.old.state ≡ [] }
    ensures ran { IfOk result (λ ran. ran ≡ (run_from M.formatter files.now limits.now.budget limits.now.pages (M.meaning spot.old.state) spot.old.opens).ran) }
    ensures counted { OnOk result (steps.new ≡ raised steps.old (run_from M.formatter files.now limits.now.budget limits.now.pages (M.meaning spot.old.state) spot.old.opens).turns) }
    ensures bound { steps.new ≤ raised steps.old (run_from M.formatter files.now limits.now.budget limits.now.pages (M.meaning spot.old.state) spot.old.opens).turns }
{
    let mut pages = Pages::new(alloc);
    let mut pieces = Pieces::new(alloc);
    for _page in 0..limits.pages {
        spot.left = limits.budget;
        let Closed { close, piece, .. } = format_page(alloc, machine, files, spot, seen, steps)?;
        match close {
            Close::Page(body) => {
                pages.push(body)?;
                pieces.push(piece)?;
            }
            Close::Halt(stop) => {
                return Ok(Ran {
                    pages,
                    pieces,
                    last: piece,
                    end: end_of(alloc, files, &spot.opens, stop)?,
                });
            }
            Close::Spent => {
                return Ok(Ran {
                    pages,
                    pieces,
                    last: piece,
                    end: End::Budget,
                });
            }
        }
    }
    Ok(Ran {
        pages,
        pieces,
        last: Bytes::new(alloc),
        end: End::PageLimit,
    })
}

/// The run of a main file on these files, from its start to its end, with no checkpoint and no reuse: what everything
/// else is held to. Each turn raises `steps` by one. Its only error is want of memory.
pub fn fresh_run<M: Machine>(
    alloc: Global,
    machine: &M,
    files: &FileSet,
    main: &Name,
    date: &Date,
    limits: &Limits,
    steps: &mut Steps,
) -> Result<Ran, AllocError>
    requires dated { IsDate date.now }
    requires limited { AreLimits limits.now }
    ensures ran { IfOk result (λ ran. ran ≡ (run M.formatter files.now main.now date.now limits.now).ran) }
    ensures few { IfOk result (λ ran. length ran.pages ≤ limits.now.pages) }
    ensures counted { OnOk result (steps.new ≡ raised steps.old (run M.formatter files.now main.now date.now limits.now).turns) }

    // Whatever the files say, and also where memory was wanting.
    ensures most { steps.new ≤ raised steps.old (run M.formatter files.now main.now date.now limits.now).turns }
    ensures bound { steps.new ≤ steps.old + (length (run M.formatter files.now main.now date.now limits.now).ran.pages + 1) * limits.now.budget }
{
    let mut spot = Spot {
        state: machine.start(alloc, date, main)?,
        opens: Opens::new(alloc),
        left: limits.budget,
    };
    let mut seen = Seen::new(alloc);
    run_pages(alloc, machine, files, &mut spot, &mut seen, limits, steps)
}
