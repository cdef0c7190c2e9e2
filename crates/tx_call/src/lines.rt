//! The lines that are said: of runs, of edits, and of what is made or refused.
ghost use Rattle.std.specs.Prelude.{◌≡◌, ◌++◌, codes, option_copied, IfOk};
ghost use Rattle.std.specs.Fmt.{decimal};
ghost use Rattle.tx_call.specs.Lines.{place_text, end_text, run_line, edit_line, outside_line, batch_outside_line, memory_line, located_text, locate_line, script_refusal_line, gen_line, help_text, run_help_text, gen_help_text, list_help_text, serve_help_text, saved_line, request_refusal_line, page_head, page_memory_line, bytes_text, version_line};

use crate::parts::{Part, joined};
use std::alloc::{AllocError, Global};
use tx_bytes::Bytes;
use tx_checkpoint::Located;
use tx_machine::End;
use tx_script::Rule;
use tx_session::Report;

/// `error E at NAME line L`, or `error E` where no file is open.
fn error_text(alloc: Global, code: u8, name: &Option<Bytes>, line: u64) -> Result<Bytes, AllocError>
    ensures { IfOk result (λ text. text ≡ codes "error " ++ decimal code ++ place_text name.now line) }
{
    match name {
        None => joined(
            alloc,
            &[Part::Text(b"error "), Part::Number(u64::from(code))],
        ),
        Some(name) => joined(
            alloc,
            &[
                Part::Text(b"error "),
                Part::Number(u64::from(code)),
                Part::Text(b" at "),
                Part::Text(name.as_slice()),
                Part::Text(b" line "),
                Part::Number(line),
            ],
        ),
    }
}

/// `end`, `error E at NAME line L`, `error E`, `budget` or `page limit`.
fn end_text(alloc: Global, end: &End) -> Result<Bytes, AllocError>
    ensures { IfOk result (λ text. text ≡ end_text end.now) }
{
    match end {
        End::End => Bytes::from_slice(alloc, b"end"),
        End::Error { code, name, line } => error_text(alloc, *code, name, *line),
        End::Budget => Bytes::from_slice(alloc, b"budget"),
        End::PageLimit => Bytes::from_slice(alloc, b"page limit"),
    }
}

/// The line of a run, `run: P pages, END` and LF.
#[tactic(auto, unfolding(crate::specs::Lines::run_line))]
pub fn run_line(alloc: Global, pages: u64, end: &End) -> Result<Bytes, AllocError>
    ensures { IfOk result (λ line. line ≡ run_line pages end.now) }
{
    let end = end_text(alloc, end)?;
    joined(
        alloc,
        &[
            Part::Text(b"run: "),
            Part::Number(pages),
            Part::Text(b" pages, "),
            Part::Text(end.as_slice()),
            Part::Text(b"\n"),
        ],
    )
}

/// The line of an edit that was made, `edit I: P pages, resumed K, formatted F, reused R, END` and LF.
#[tactic(auto, unfolding(crate::specs::Lines::edit_line))]
pub fn edit_line(
    alloc: Global,
    number: u64,
    report: &Report,
    end: &End,
) -> Result<Bytes, AllocError>
    ensures { IfOk result (λ line. line ≡ edit_line number report.now end.now) }
{
    let end = end_text(alloc, end)?;
    joined(
        alloc,
        &[
            Part::Text(b"edit "),
            Part::Number(number),
            Part::Text(b": "),
            Part::Number(report.pages as u64),
            Part::Text(b" pages, resumed "),
            Part::Number(report.resumed as u64),
            Part::Text(b", formatted "),
            Part::Number(report.formatted as u64),
            Part::Text(b", reused "),
            Part::Number(report.reused as u64),
            Part::Text(b", "),
            Part::Text(end.as_slice()),
            Part::Text(b"\n"),
        ],
    )
}

/// The line of an edit that goes past the end of its file, `edit I: outside, file has L bytes` and LF.
#[tactic(auto, unfolding(crate::specs::Lines::outside_line))]
pub fn outside_line(alloc: Global, number: u64, len: u64) -> Result<Bytes, AllocError>
    ensures { IfOk result (λ line. line ≡ outside_line number len) }
{
    joined(
        alloc,
        &[
            Part::Text(b"edit "),
            Part::Number(number),
            Part::Text(b": outside, file has "),
            Part::Number(len),
            Part::Text(b" bytes\n"),
        ],
    )
}

/// The line of a batch of which this change, counted from 1, is the first that goes past the end of its file,
/// `edit I: change J outside, file has L bytes` and LF.
#[tactic(auto, unfolding(crate::specs::Lines::batch_outside_line))]
pub fn batch_outside_line(
    alloc: Global,
    number: u64,
    index: u64,
    len: u64,
) -> Result<Bytes, AllocError>
    ensures { IfOk result (λ line. line ≡ batch_outside_line number index len) }
{
    joined(
        alloc,
        &[
            Part::Text(b"edit "),
            Part::Number(number),
            Part::Text(b": change "),
            Part::Number(index),
            Part::Text(b" outside, file has "),
            Part::Number(len),
            Part::Text(b" bytes\n"),
        ],
    )
}

/// The line of an edit for which there was no memory, `edit I: memory` and LF.
#[tactic(auto, unfolding(crate::specs::Lines::memory_line))]
pub fn memory_line(alloc: Global, number: u64) -> Result<Bytes, AllocError>
    ensures { IfOk result (λ line. line ≡ memory_line number) }
{
    joined(
        alloc,
        &[
            Part::Text(b"edit "),
            Part::Number(number),
            Part::Text(b": memory\n"),
        ],
    )
}

/// `page K`, `after page P` or `none`.
fn located_text(alloc: Global, pages: u64, at: Located) -> Result<Bytes, AllocError>
    ensures { IfOk result (λ text. text ≡ located_text pages at) }
{
    match at {
        Located::Page(k) => joined(alloc, &[Part::Text(b"page "), Part::Number(k as u64)]),
        Located::After => joined(alloc, &[Part::Text(b"after page "), Part::Number(pages)]),
        Located::Nowhere => Bytes::from_slice(alloc, b"none"),
    }
}

/// The line of a place that is asked for, `locate J: page K` and LF, or the like.
#[tactic(auto, unfolding(crate::specs::Lines::locate_line))]
pub fn locate_line(alloc: Global, number: u64, pages: u64, at: Located) -> Result<Bytes, AllocError>
    ensures { IfOk result (λ line. line ≡ locate_line number pages at) }
{
    let at = located_text(alloc, pages, at)?;
    joined(
        alloc,
        &[
            Part::Text(b"locate "),
            Part::Number(number),
            Part::Text(b": "),
            Part::Text(at.as_slice()),
            Part::Text(b"\n"),
        ],
    )
}

/// The line of a script that is refused, `script refused at PLACE, rule R` and LF.
#[tactic(auto, unfolding(crate::specs::Lines::script_refusal_line))]
pub fn script_refusal_line(alloc: Global, place: u64, rule: Rule) -> Result<Bytes, AllocError>
    ensures { IfOk result (λ line. line ≡ script_refusal_line place rule) }
{
    joined(
        alloc,
        &[
            Part::Text(b"script refused at "),
            Part::Number(place),
            Part::Text(b", rule "),
            Part::Number(u64::from(rule.number())),
            Part::Text(b"\n"),
        ],
    )
}

/// The line of a request to save what there is, `saved NAME` and LF.
#[tactic(auto, unfolding(crate::specs::Lines::saved_line))]
pub fn saved_line(alloc: Global, name: &[u8]) -> Result<Bytes, AllocError>
    ensures { IfOk result (λ line. line ≡ saved_line name.now) }
{
    joined(
        alloc,
        &[Part::Text(b"saved "), Part::Text(name), Part::Text(b"\n")],
    )
}

/// The line of bytes that are no request, `request refused, rule R` and LF.
#[tactic(auto, unfolding(crate::specs::Lines::request_refusal_line))]
pub fn request_refusal_line(alloc: Global, rule: Rule) -> Result<Bytes, AllocError>
    ensures { IfOk result (λ line. line ≡ request_refusal_line rule) }
{
    joined(
        alloc,
        &[
            Part::Text(b"request refused, rule "),
            Part::Number(u64::from(rule.number())),
            Part::Text(b"\n"),
        ],
    )
}

/// What the answer of a page begins with, `page K: `.
#[tactic(auto, unfolding(crate::specs::Lines::page_head))]
pub fn page_head(alloc: Global, number: u64) -> Result<Bytes, AllocError>
    ensures { IfOk result (λ head. head ≡ page_head number) }
{
    joined(
        alloc,
        &[
            Part::Text(b"page "),
            Part::Number(number),
            Part::Text(b": "),
        ],
    )
}

/// The line of a page for which there was no memory, `page K: memory` and LF.
#[tactic(auto, unfolding(crate::specs::Lines::page_memory_line))]
pub fn page_memory_line(alloc: Global, number: u64) -> Result<Bytes, AllocError>
    ensures { IfOk result (λ line. line ≡ page_memory_line number) }
{
    joined(
        alloc,
        &[
            Part::Text(b"page "),
            Part::Number(number),
            Part::Text(b": memory\n"),
        ],
    )
}

/// Bytes behind such a beginning: `N bytes` and LF, and these and LF; or `none` and LF.
#[tactic(auto, unfolding(crate::specs::Lines::bytes_text))]
pub fn bytes_text<'a>(
    alloc: Global,
    head: &'a [u8],
    bytes: Option<&'a [u8]>,
) -> Result<Bytes, AllocError>
    ensures { IfOk result (λ text. text ≡ bytes_text head.now (option_copied bytes.entry)) }
{
    match bytes {
        None => joined(alloc, &[Part::Text(head), Part::Text(b"none\n")]),
        Some(bytes) => joined(
            alloc,
            &[
                Part::Text(head),
                Part::Number(bytes.len() as u64),
                Part::Text(b" bytes\n"),
                Part::Text(bytes),
                Part::Text(b"\n"),
            ],
        ),
    }
}

/// The line of a document that was made, `gen: P pages, P edits` and LF.
#[tactic(auto, unfolding(crate::specs::Lines::gen_line))]
pub fn gen_line(alloc: Global, pages: u64) -> Result<Bytes, AllocError>
    ensures { IfOk result (λ line. line ≡ gen_line pages) }
{
    joined(
        alloc,
        &[
            Part::Text(b"gen: "),
            Part::Number(pages),
            Part::Text(b" pages, "),
            Part::Number(pages),
            Part::Text(b" edits\n"),
        ],
    )
}

/// What `--version` says.
pub fn version_line() -> &'static [u8]
    ensures { result.now ≡ version_line }
{
    b"vortex 0.2.0\n"
}

/// What `help` says: what the program is, its commands, and its statuses.
#[tactic(auto, unfolding(crate::specs::Lines::help_text))]
pub fn help_text() -> &'static [u8]
    ensures { result.now ≡ help_text }
{
    b"vortex: TeX, written as DVI, and kept ready for edits.\n
Usage: vortex COMMAND\n
  run             formats a document, and again after each edit of a script
  gen             makes a document of many pages, and a script for it
  list            says what the pages of a DVI file bring
  serve           formats a document, and answers requests as they come in
  help [COMMAND]  says this, or how a command is called
  -h, --help      says this, and behind a command how that is called
  -V, --version   says the version\n
For example, in the folder examples/edits:\n
  vortex run --date 2024-5-17-570 --out a --script edits main.tex\n
Statuses: 0 all is done; 1 all is done, but a run ended by an error or a limit;
2 the words, the script or the DVI file are refused; 3 a file can't be read;
4 something can't be said or saved; 5 an edit goes past the end of its file;
6 no memory is left.
What went wrong, and what would mend it, is told on standard error.
"
}

/// What `help run` says: how `run` is called.
#[tactic(auto, unfolding(crate::specs::Lines::run_help_text))]
pub fn run_help_text() -> &'static [u8]
    ensures { result.now ≡ run_help_text }
{
    b"Usage: vortex run --date Y-M-D-T --out NAME [OPTIONS] MAIN [FILE..]\n
Formats MAIN, says how many pages it has and how it ended, carries out the
commands of a script, and saves the pages as NAME.dvi, if there is one, and the
transcript as NAME.log. Files are those of the folder in which it is called; a
name has 1 to 255 characters of ASCII and no space.\n
  --date Y-M-D-T  the date that TeX sees, T in minutes since midnight, 0 to 1439
  --out NAME      the name of what is saved
  --script EDITS  a file of commands: edits and others, told below
  --budget N      what a page may cost, in steps of TeX, 1 to 1000000000 (1000000)
  --pages N       a run ends when it has N pages, 1 to 10000 (1000)
  --keep N        1 to 10000 (10000); it has no effect, all states are kept
  -h, --help      says this\n
For example, in the folder examples/edits:\n
  vortex run --date 2024-5-17-570 --out a --script edits main.tex\n
The commands of a script:\n
  edit PLACE REMOVED N FILE  takes REMOVED bytes out of FILE behind the first
                             PLACE, and puts N bytes there: those behind this
                             line, where a line feed follows them
  remove FILE                takes FILE away
  batch N                    makes the N edits and removals behind it together
  locate PLACE FILE          says by which page that place is first read
  save NAME                  saves what there is by then, NAME.dvi and NAME.log\n
This script takes 2 bytes out of main.tex behind the first 99, puts 3 others
there, and saves what there is then as b.dvi and b.log:\n
  edit 99 2 3 main.tex
  100
  save b\n
The statuses are those that vortex --help tells.
"
}

/// What `help gen` says: how `gen` is called.
#[tactic(auto, unfolding(crate::specs::Lines::gen_help_text))]
pub fn gen_help_text() -> &'static [u8]
    ensures { result.now ≡ gen_help_text }
{
    b"Usage: vortex gen SEED PAGES\n
Makes a document of many pages, for runs of any size: book.tex, gen.tfm, the
metrics of its font, and gen.vtx, a script with an edit for each page. They are
saved in the folder in which it is called, over files of these names. The same
SEED makes the same files.\n
  SEED            0 to 4294967295
  PAGES           1 to 1000
  -h, --help      says this\n
For example:\n
  vortex gen 1 100
  vortex run --date 2024-5-17-570 --out a --script gen.vtx book.tex gen.tfm\n
The statuses are those that vortex --help tells.
"
}

/// What `help list` says: how `list` is called.
#[tactic(auto, unfolding(crate::specs::Lines::list_help_text))]
pub fn list_help_text() -> &'static [u8]
    ensures { result.now ≡ list_help_text }
{
    b"Usage: vortex list FILE\n
Says of each page of the DVI file FILE its number and the ten numbers that it
has, and then of each character, rule and special that is met on it, in the order
of the file, where it lies: how many sp to the right and down from the origin. A
DVI file doesn't tell how wide characters are, so they have no width here. FILE
is of the folder in which it is called.\n
  char C font F at H V      the character of code C of the font of number F
  rule A B at H V           a rule, A high and B wide, in sp
  special N bytes at H V    a special of so many bytes
  -h, --help                says this\n
For example:\n
  vortex list a.dvi\n
The statuses are those that vortex --help tells.
"
}

/// What `help serve` says: how `serve` is called.
#[tactic(auto, unfolding(crate::specs::Lines::serve_help_text))]
pub fn serve_help_text() -> &'static [u8]
    ensures { result.now ≡ serve_help_text }
{
    b"Usage: vortex serve --date Y-M-D-T [OPTIONS] MAIN [FILE..]\n
Formats MAIN, says how many pages it has and how it ended, and then answers the
requests that come on standard input, one after the other, until it ends: so an
editor has the pages of a document that is being typed. Files are those of the
folder in which it is called, as they are then.\n
  --date Y-M-D-T  the date that TeX sees, T in minutes since midnight, 0 to 1439
  --budget N      what a page may cost, in steps of TeX, 1 to 1000000000 (1000000)
  --pages N       a run ends when it has N pages, 1 to 10000 (1000)
  --keep N        1 to 10000 (10000); it has no effect, all states are kept
  -h, --help      says this\n
The requests, and what is said of each:\n
  edit, remove, batch, locate  as in a script; the line that it says there
  save NAME                    as in a script; saved NAME
  file N FILE                  from then on FILE has the N bytes behind this
                               line, where a line feed follows them; the line
                               of the edit that does it
  page K                       page K as a DVI file: page K: N bytes, then those
                               and a line feed; page K: none if there is none
  log                          the transcript: log: N bytes, then those and a
                               line feed
  log K                        the same of what page K brought to it\n
Anything else is refused, and the next request begins behind the next line feed.
For example, where page 1 is asked for after a letter was put in front:\n
  edit 0 0 1 main.tex
  a
  page 1\n
The statuses are those that vortex --help tells.
"
}
