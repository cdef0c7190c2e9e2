//! What is told on standard error, line by line.
use std::alloc::{AllocError, Global};

/// A line on standard error.
#[derive(Drop)]
pub enum Line {
    /// A cause, or what else there is to tell. The program's name stands before it.
    Cause(String),
    /// What belongs to the cause above it, as a line of a file.
    Below(String),
}

/// A text in one line, whatever the words and names in it have.
fn one_line(alloc: Global, text: &str) -> Result<String, AllocError> {
    let mut line = String::new(alloc);
    for c in text.chars() {
        line.push(if c.is_control() { '?' } else { c })?;
    }
    Ok(line)
}

/// Tells a text on standard error, behind another one. Where that fails nobody can be told.
fn tell_behind<R: Eprint>(rt: &R, alloc: Global, before: &str, text: &str) {
    let _ = match one_line(alloc, text) {
        Ok(line) => eprintln!(rt; "{before}{line}"),
        Err(_) => eprintln!(rt; "vortex: no memory is left"),
    };
}

/// Tells a cause on standard error.
pub fn tell<R: Eprint>(rt: &R, alloc: Global, cause: &str) {
    tell_behind(rt, alloc, "vortex: ", cause)
}

fn tell_line<R: Eprint>(rt: &R, alloc: Global, line: &Line) {
    match line {
        Line::Cause(text) => tell(rt, alloc, text.as_str()),
        Line::Below(text) => tell_behind(rt, alloc, "", text.as_str()),
    }
}

/// Tells each line.
pub fn tell_all<R: Eprint>(rt: &R, alloc: Global, lines: Result<Vec<Line>, AllocError>) {
    match lines {
        Ok(lines) => {
            for line in &lines {
                tell_line(rt, alloc, line);
            }
        }
        Err(_) => tell(rt, alloc, "no memory is left to say why"),
    }
}
