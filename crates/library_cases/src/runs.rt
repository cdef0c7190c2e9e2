//! Cases of fresh runs of line_machine, worked out by hand: a turn for each ask, each space that is passed over, each page and
//! each stop, and each turn costs 1.
ghost use Rattle.std.specs.Prelude.{◌≤◌, IfSome};
ghost use Rattle.tx_machine.specs.Ranges.{AreLimits};

use crate::documents::{main_name, set_of};
use line_machine::LineMachine;
use std::alloc::{AllocError, Global};
use tx_cases::first_word;
use tx_files::FileSet;
use tx_machine::{Date, End, Limits, Ran, Steps, fresh_run};

/// - `run NAME BUDGET PAGES TEXT`, each page with its year and its piece of the transcript, the last piece, the end, and the
///   turns of a run of `main` where the file of this name holds this text, within these limits;
/// - `long SIZE`, the same where the third line of the file has so many bytes before its LF; more than ten are counted.
pub fn write_answer(
    alloc: Global,
    text: &mut String,
    word: &str,
    rest: &str,
    steps: &mut Steps,
) -> Result<(), AllocError> {
    if word == "long" {
        let document = three_lines(alloc, rest.parse().unwrap_or(0))?;
        return write_run(
            alloc,
            text,
            "main",
            document.as_str(),
            &within(100, 10),
            steps,
        );
    }
    let (name, rest) = first_word(rest);
    let (budget, rest) = first_word(rest);
    let (pages, document) = first_word(rest);
    match limits_of(budget, pages) {
        Some(limits) => write_run(alloc, text, name, document, &limits, steps),
        None => text.push_str("malformed"),
    }
}

/// The limits of two words, within 1000 each.
fn limits_of(budget: &str, pages: &str) -> Option<Limits>
    ensures { IfSome result AreLimits }
{
    let (budget, pages) = (budget.parse::<u64>().ok()?, pages.parse::<u32>().ok()?);
    if 1 <= budget && budget <= 1000 && 1 <= pages && pages <= 1000 {
        Some(within(budget, pages))
    } else {
        None
    }
}

const DATE: Date = Date {
    year: 2026,
    month: 2,
    day: 28,
    minutes: 1439,
};

/// Writes bytes as characters, and how many there are in place of more than 10.
fn write_bytes(text: &mut String, bytes: &[u8]) -> Result<(), AllocError> {
    let size = bytes.len();
    if size > 10 {
        return write!(text, "{size} bytes");
    }
    for byte in bytes {
        text.push(char::from(*byte))?;
    }
    Ok(())
}

/// Writes how a run ended.
pub fn write_end(text: &mut String, end: &End) -> Result<(), AllocError> {
    match end {
        End::End => text.push_str("end"),
        End::Budget => text.push_str("budget"),
        End::PageLimit => text.push_str("page limit"),
        End::Error { code, name, line } => {
            write!(text, "error {code}, line {line}")?;
            if let Some(name) = name {
                text.push_str(" of ")?;
                write_bytes(text, name.as_slice())?;
            }
            Ok(())
        }
    }
}

/// Writes a page's commands, its year and its piece of the transcript.
fn write_page(text: &mut String, body: &[u8], year: i32, piece: &[u8]) -> Result<(), AllocError> {
    write_bytes(text, body)?;
    write!(text, " {year} ")?;
    write_bytes(text, piece)?;
    text.push_str("; ")
}

fn write_pages(text: &mut String, ran: &Ran) -> Result<(), AllocError> {
    for (page, piece) in ran.pages.as_slice().iter().zip(ran.pieces.as_slice()) {
        write_page(text, page.body(), page.parts().date.year, piece.as_slice())?;
    }
    Ok(())
}

/// Each page with its year and its piece of the transcript, the last piece, the end, and the turns.
fn write_all(text: &mut String, ran: &Ran, steps: &Steps) -> Result<(), AllocError> {
    write_pages(text, ran)?;
    write_bytes(text, ran.last.as_slice())?;
    write_end(text, &ran.end)?;
    write!(text, "; {steps:?}")
}

/// Writes the run of `main` where the file of this name holds what a text stands for.
fn write_run(
    alloc: Global,
    text: &mut String,
    name: &str,
    document: &str,
    limits: &Limits,
    steps: &mut Steps,
) -> Result<(), AllocError>
    requires { AreLimits limits.now }
{
    let files = set_of(alloc, name, document)?;
    write_run_on(alloc, text, &files, limits, steps)
}

fn write_run_on(
    alloc: Global,
    text: &mut String,
    files: &FileSet,
    limits: &Limits,
    steps: &mut Steps,
) -> Result<(), AllocError>
    requires { AreLimits limits.now }
{
    let ran = run_on(alloc, files, limits, steps)?;
    write_all(text, &ran, steps)
}

/// The run of `main` on these files.
fn run_on(
    alloc: Global,
    files: &FileSet,
    limits: &Limits,
    steps: &mut Steps,
) -> Result<Ran, AllocError>
    requires { AreLimits limits.now }
{
    let main = main_name(alloc)?;
    fresh_run(alloc, &LineMachine, files, &main, &DATE, limits, steps)
}

/// Limits of this budget for a page and so many pages.
fn within(budget: u64, pages: u32) -> Limits
    requires budget { (1 ≤ budget) × (budget ≤ 1000000000) }
    requires pages { (1 ≤ pages) × (pages ≤ 10000) }
    ensures { AreLimits result }
{
    Limits {
        budget,
        pages,
        keep: 1,
    }
}

/// The text of three lines, of which the third has so many bytes before its LF.
fn three_lines(alloc: Global, size: u32) -> Result<String, AllocError> {
    let mut text = String::from_str(alloc, "a\n\n")?;
    for _ in 0..size {
        text.push('x')?;
    }
    text.push_str("\n.\n")?;
    Ok(text)
}
