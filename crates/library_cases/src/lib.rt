//! The worked cases of the libraries: what no document shows, or not at the borders. Each module says what its cases are given.
//! The font, the patterns and the exceptions that a case has taken are there for those behind it; `fresh` forgets the patterns
//! and the exceptions, `keep` keeps them, and `same` says whether they are those that were kept.
//!
//! Proved: it is safe, whatever is given.
//!
//! Read `numbers`, `files`, `scripts`, `primitives`, `lists`, `boxes` and `packing`, `displays`, `paragraphs`, and `outside`; then
//! `fonts`, `dvi`, `ligatures`, `words` and `hyphenating`; then `documents` and `edits`, `rows`, `runs` and `sessions`.
#![tactic(auto)]

mod boxes;
mod displays;
mod documents;
mod dvi;
mod edits;
mod files;
mod fonts;
mod hyphenating;
mod ligatures;
mod lists;
mod numbers;
mod outside;
mod packing;
mod paragraphs;
mod primitives;
mod rows;
mod runs;
mod scripts;
mod sessions;
mod words;

use std::alloc::{AllocError, Global};
use std::io;
use tx_cases::{Answers, first_line, first_word, run_files};
use tx_hyphen::hyphens::Hyphens;
use tx_machine::CountsTurns;
use tx_tfm::{Font, Fonts};

/// What the cases so far have made.
#[derive(Drop)]
struct Desk {
    font: Option<Font>,
    fonts: Fonts,
    hyphens: Hyphens,
    kept: Hyphens,
}

impl Answers for Desk {
    fn answer(&mut self, rt: &HostRuntime, text: &mut String, given: &str) -> io::Result<()> {
        let (line, lines) = first_line(given);
        let (word, rest) = first_word(line);
        match word {
            "font" => fonts::take(rt, text, &mut self.font, rest),
            "dvi" => dvi::write_answer(rt, text, rest),
            "folder" => outside::write_folder(rt, text, lines),
            "resume" | "edited" | "replayed" | "run" | "long" => {
                Ok(write_ran(rt, text, word, rest, lines)?)
            }
            _ => Ok(write_told(rt.alloc(), text, self, word, rest, lines)?),
        }
    }
}

/// Runs the cases of the files that the words of the command line name, or answers the lines of the standard input; those in the
/// folder `calls` are answered by `calls`.
pub fn run<C: Answers>(rt: &HostRuntime, calls: &mut C) -> io::Result<()> {
    let hyphens = Hyphens::new(rt.alloc())?;
    let kept = Hyphens::new(rt.alloc())?;
    let mut desk = Desk {
        font: None,
        fonts: Fonts::new(rt.alloc()),
        hyphens,
        kept,
    };
    run_files(rt, calls, &mut desk)
}

/// Writes the answer to a case of what stands above the seam.
fn write_ran(
    rt: &HostRuntime,
    text: &mut String,
    word: &str,
    rest: &str,
    lines: &str,
) -> Result<(), AllocError> {
    match word {
        "resume" => rows::write_answer(rt.alloc(), text, rest),
        "edited" | "replayed" => {
            sessions::write_answer(rt.alloc(), text, word, rest, lines, &mut rt.steps())
        }
        _ => runs::write_answer(rt.alloc(), text, word, rest, &mut rt.steps()),
    }
}

/// Writes the answer to what needs neither a file nor turns.
fn write_told(
    alloc: Global,
    text: &mut String,
    desk: &mut Desk,
    word: &str,
    rest: &str,
    lines: &str,
) -> Result<(), AllocError> {
    match word {
        "load" => words::load(alloc, text, &mut desk.font, &mut desk.fonts, rest),
        "patterns" | "pattern" | "exception" => {
            hyphenating::add(alloc, text, &mut desk.hyphens, word, rest)
        }
        "fresh" => {
            put(&mut desk.hyphens, Hyphens::new(alloc)?);
            text.push_str("forgotten")
        }
        "keep" => {
            put(&mut desk.kept, desk.hyphens.share()?);
            text.push_str("kept")
        }
        _ => write_asked(alloc, text, desk, word, rest, lines),
    }
}

/// Puts patterns and exceptions in the place of others.
fn put(place: &mut Hyphens, hyphens: Hyphens) {
    *place = hyphens;
}

/// Writes the answer to what changes nothing.
fn write_asked(
    alloc: Global,
    text: &mut String,
    desk: &Desk,
    word: &str,
    rest: &str,
    lines: &str,
) -> Result<(), AllocError> {
    match word {
        "compose" => ligatures::write_answer(alloc, text, &desk.font, rest),
        "word" => ligatures::write_by_codes(alloc, text, &desk.font, rest),
        "set" => words::write_set(alloc, text, &desk.fonts, rest),
        "factor" => words::write_factor(text, rest),
        "places" => hyphenating::write_places(alloc, text, &desk.hyphens, rest),
        "same" => write!(text, "{}", desk.kept.same(&desk.hyphens)),
        "there"
        | "width"
        | "height"
        | "depth"
        | "italic"
        | "successor"
        | "recipe"
        | "parameter"
        | "parameters"
        | "checksum"
        | "design"
        | "command" => fonts::write_answer(text, &desk.font, word, rest),
        _ => write_alone(alloc, text, word, rest, lines),
    }
}

/// Writes the answer to a case that depends on none before it.
fn write_alone(
    alloc: Global,
    text: &mut String,
    word: &str,
    rest: &str,
    lines: &str,
) -> Result<(), AllocError> {
    match word {
        "files" => files::write_play(alloc, text, lines),
        "line" | "lines" => files::write_answer(alloc, text, word, rest),
        "script" | "front" => scripts::write_answer(alloc, text, word, rest),
        "test" | "place" | "standing" => primitives::write_answer(text, word, rest),
        "box" | "twin" | "alike" | "page" | "body" => boxes::write_answer(alloc, text, word, rest),
        "hpack" | "vpack" => packing::write_answer(alloc, text, word, rest),
        "edge" | "display" | "eqno" | "leqno" => displays::write_answer(alloc, text, word, rest),
        "breaks" => paragraphs::write_answer(alloc, text, rest),
        _ => numbers::write_answer(alloc, text, word, rest),
    }
}
