//! How a run ended, by the line that was said of it.
use crate::run::{Run, text_of};
use crate::telling::Line;
use std::alloc::{AllocError, Global};
use tx_files::Name;
use tx_io::FilesRead;
use tx_seen::TexError;

/// The last line of a run or of an edit that was made; empty where there is none.
fn last_line(said: &str) -> &str {
    let mut last = "";
    for line in said.lines() {
        if line.contains(" pages, ") {
            last = line;
        }
    }
    last
}

/// Writes `, after edit I`, and nothing for the run before all edits.
fn write_moment(text: &mut String, line: &str) -> Result<(), AllocError> {
    match line.split_once(": ") {
        Some((edit, _)) if edit.starts_with("edit ") => write!(text, ", after {edit}"),
        _ => Ok(()),
    }
}

/// How many pages the line tells of.
fn pages(line: &str) -> &str {
    let Some((before, _)) = line.split_once(" pages, ") else {
        return "";
    };
    match before.rsplit_once(' ') {
        Some((_, pages)) => pages,
        None => before,
    }
}

/// The number of the page behind those of which the line tells.
fn page_behind(line: &str) -> u64 {
    match pages(line).parse::<u64>() {
        Ok(pages) => pages.saturating_add(1),
        Err(_) => 0,
    }
}

/// Writes an error in words, by its number as a run prints it.
fn write_error_text(text: &mut String, code: &str) -> Result<(), AllocError> {
    match TexError::of_number(code.parse().unwrap_or(0)) {
        Some(error) => write!(text, "{error}"),
        None => text.push_str("an error without words"),
    }
}

/// Writes an error of which the end tells the number, and the file and line where it has them.
fn write_error_cause(text: &mut String, main: &str, error: &str) -> Result<(), AllocError> {
    let (code, place) = error.split_once(" at ").unwrap_or((error, ""));
    match place.rsplit_once(" line ") {
        Some((name, line)) => write!(text, "{name}:{line}: error {code}: ")?,
        None => write!(text, "{main}: error {code}: ")?,
    }
    write_error_text(text, code)
}

/// Writes that a page costs more than it may.
fn write_budget_cause(
    text: &mut String,
    main: &str,
    budget: u64,
    line: &str,
) -> Result<(), AllocError> {
    let page = page_behind(line);
    write!(
        text,
        "{main}: page {page} costs more than the budget of {budget}; --budget raises it, if no macro calls itself for ever"
    )
}

/// Writes that there are as many pages as there may be.
fn write_limit_cause(text: &mut String, main: &str, line: &str) -> Result<(), AllocError> {
    let pages = pages(line);
    write!(
        text,
        "{main}: the run ends with {pages} pages, as many as it may make"
    )?;
    // (no more can be asked for)
    if pages == "10000" {
        return Ok(());
    }
    text.push_str("; --pages raises that")
}

/// Writes why the last run, of which this is the line, didn't end by \end.
fn write_end(text: &mut String, run: &Run<'_>, line: &str) -> Result<(), AllocError> {
    let main = text_of(run.main.as_slice());
    let (_, end) = line.rsplit_once(", ").unwrap_or(("", line));
    if let Some(error) = end.strip_prefix("error ") {
        return write_error_cause(text, main, error);
    }
    if end == "budget" {
        return write_budget_cause(text, main, run.budget, line);
    }
    write_limit_cause(text, main, line)
}

/// Writes why the last run didn't end by \end, as its line has it.
pub fn write_end_cause(text: &mut String, run: &Run<'_>, said: &str) -> Result<(), AllocError> {
    let line = last_line(said);
    write_end(text, run, line)?;
    write_moment(text, line)
}

/// The number of the error by which the last run ended, with its file and line, as they are said; none where it ended otherwise, or
/// by an error that has no place.
pub fn spot_of(said: &str) -> Option<(&str, &str, &str)> {
    let (_, end) = last_line(said).rsplit_once(", error ")?;
    let (code, place) = end.split_once(" at ")?;
    let (name, line) = place.rsplit_once(" line ")?;
    Some((code, name, line))
}

/// Whether this file, which isn't the main one, was listed and isn't there.
fn is_absent(run: &Run<'_>, read: &FilesRead, name: &Name) -> bool {
    let is_main = name.as_slice() == run.main.as_slice();
    !is_main && !read.contains(name.as_slice())
}

/// Whether a file was listed that isn't there.
fn lacks_any(run: &Run<'_>, read: &FilesRead) -> bool {
    for name in run.files {
        if is_absent(run, read, name) {
            return true;
        }
    }
    false
}

/// Writes how a file is listed that the document asked for, where an error of this number speaks of one.
fn write_help(text: &mut String, code: &str, main: &str) -> Result<(), AllocError> {
    match code {
        "20" => write!(
            text,
            "      = a document has those files that its call lists: name this one behind {main}"
        ),
        "21" => write!(
            text,
            "      = a font is read from its .tfm file, which has to be listed behind {main} too"
        ),
        _ => Ok(()),
    }
}

fn help_of(alloc: Global, code: &str, main: &Name) -> Result<String, AllocError> {
    let mut text = String::new(alloc);
    write_help(&mut text, code, text_of(main.as_slice()))?;
    Ok(text)
}

/// Adds what would mend the error of this number, where one thing is likely; an absent file that was listed is told by itself.
pub fn append_help(
    alloc: Global,
    lines: &mut Vec<Line>,
    run: &Run<'_>,
    code: &str,
    read: &FilesRead,
) -> Result<(), AllocError> {
    if lacks_any(run, read) {
        return Ok(());
    }
    let text = help_of(alloc, code, run.main)?;
    if !text.is_empty() {
        lines.push(Line::Below(text))?;
    }
    Ok(())
}

/// Adds a line for each file, but for the main one, that was listed and isn't there.
pub fn append_absent_causes(
    alloc: Global,
    lines: &mut Vec<Line>,
    run: &Run<'_>,
    read: &FilesRead,
) -> Result<(), AllocError> {
    for name in run.files {
        if is_absent(run, read, name) {
            lines.push(Line::Cause(absent_cause(alloc, name)?))?;
        }
    }
    Ok(())
}

fn absent_cause(alloc: Global, name: &Name) -> Result<String, AllocError> {
    let text = text_of(name.as_slice());
    format!(in alloc; "{text}: there is no such file, and the run was without it")
}
