//! The worked cases of the top call, over files in memory. A case is
//!
//! - `call WORDS` and lines behind it, as `write_outcome` reads them;
//! - `same WORDS`, a call on the document `one_page` that comes out as the plain call does, or else what comes of it;
//! - `refused WORDS`, a call whose words are refused before a file is fetched, or else what comes of it.
use std::alloc::{AllocError, Global};
use std::{fs, io};
use tx_bytes::Bytes;
use tx_cases::{Answers, bytes_of, first_line, first_word, write_bytes, write_hexadecimal};
use tx_io::{MemoryInlet, MemorySink, MemorySource};
use tx_machine::CountsTurns;
use vortex_cmd::serve::serve;
use vortex_cmd::vortex::vortex;

/// The words of the plain call.
const PLAIN: &str = "run|--date|2024-5-17-570|--out|a|main.tex";

/// Its document, and what is shown of it.
const DOCUMENT: &str = "take main.tex one_page\nsaved a.dvi\nsaved a.log";

/// The same, where no file can be fetched.
const UNFETCHED: &str = "take main.tex one_page\nfails fetch 1\nsaved a.dvi\nsaved a.log";

/// What comes of words that are refused.
const REFUSED: &str = "status 2\nwords refused\na.dvi: nothing\na.log: nothing\n";

/// The top call, which keeps nothing from case to case.
#[derive(Drop)]
pub struct Calls;

impl Answers for Calls {
    fn answer(&mut self, rt: &HostRuntime, text: &mut String, given: &str) -> io::Result<()> {
        let (line, lines) = first_line(given);
        let (word, words) = first_word(line);
        match word {
            "call" => write_outcome(rt, text, words, lines),
            "same" => write_same(rt, text, words),
            "refused" => write_compared(rt, text, words, UNFETCHED, REFUSED, "refused"),
            _ => Ok(text.push_str("malformed")?),
        }
    }
}

fn write_same(rt: &HostRuntime, text: &mut String, words: &str) -> io::Result<()> {
    let mut plain = String::new(rt.alloc());
    write_outcome(rt, &mut plain, PLAIN, DOCUMENT)?;
    write_compared(rt, text, words, DOCUMENT, plain.as_str(), "same")
}

/// Writes the word, where what comes of a call is what is expected, and else that.
fn write_compared(
    rt: &HostRuntime,
    text: &mut String,
    words: &str,
    lines: &str,
    expected: &str,
    word: &str,
) -> io::Result<()> {
    let mut found = String::new(rt.alloc());
    write_outcome(rt, &mut found, words, lines)?;
    let written = if found.as_str() == expected {
        text.push_str(word)
    } else {
        text.push_str(found.as_str())
    };
    Ok(written?)
}

/// Writes what comes of a call with these words, between which bars stand, by lines of
///
/// - `file NAME`, a file of the source, whose bytes are in the lines behind it: a line that begins with `|` is one of the
///   file, and one that begins with `+` stands there without a line feed; `take NAME FILE`, with the bytes of a real file;
/// - `fails fetch NUMBER`, `fails say NUMBER` and `fails save NUMBER`, calls that fail, by their numbers from 1 on;
/// - `requests`, behind all files, of which there is one at least, and in the lines behind it, which are those of a file, what comes
///   in: then the call is one that serves a document; `fails read NUMBER`, calls of what comes in that fail;
/// - `given NAME`, a file that was saved by then, which the source has from then on, and `then WORDS`, a further call, in
///   their order;
/// - `saved NAME`, a file of the sink that is shown: one whose name ends with `.dvi` in hexadecimal; `alike NAME OTHER`, two
///   of them that are compared.
///
/// That is the status of each call, what was said, and the files that are shown.
fn write_outcome(rt: &HostRuntime, text: &mut String, words: &str, lines: &str) -> io::Result<()> {
    let failing = failing(rt.alloc(), "fails fetch ", lines)?;
    let mut source = MemorySource::new(rt.alloc(), failing);
    write_called(rt, text, words, &mut source, lines)
}

fn write_called(
    rt: &HostRuntime,
    text: &mut String,
    words: &str,
    source: &mut MemorySource,
    lines: &str,
) -> io::Result<()> {
    put_files(rt, source, lines)?;
    Ok(write_put_out(rt, text, words, source, lines)?)
}

/// Writes what is put out by a call on these files.
fn write_put_out(
    rt: &HostRuntime,
    text: &mut String,
    words: &str,
    source: &mut MemorySource,
    lines: &str,
) -> Result<(), AllocError> {
    let mut sink = sink_of(rt.alloc(), lines)?;
    write_told(rt, text, words, source, &mut sink, lines)
}

fn sink_of(alloc: Global, lines: &str) -> Result<MemorySink, AllocError> {
    let says = failing(alloc, "fails say ", lines)?;
    let saves = failing(alloc, "fails save ", lines)?;
    Ok(MemorySink::new(alloc, says, saves))
}

fn write_told(
    rt: &HostRuntime,
    text: &mut String,
    words: &str,
    source: &mut MemorySource,
    sink: &mut MemorySink,
    lines: &str,
) -> Result<(), AllocError> {
    match requests_of(rt.alloc(), lines)? {
        None => write_status(rt, text, words, source, sink)?,
        Some(requests) => {
            let failing = failing(rt.alloc(), "fails read ", lines)?;
            let mut inlet = MemoryInlet::new(requests, failing);
            write_served(rt, text, words, source, &mut inlet, sink)?;
        }
    }
    for line in lines.split('\n') {
        write_later(rt, text, line, source, sink)?;
    }
    write_bytes(text, sink.said())?;
    write_saved(text, sink, lines)
}

/// Makes a further call, or gives the source a file of the sink, where a line says so.
fn write_later(
    rt: &HostRuntime,
    text: &mut String,
    line: &str,
    source: &mut MemorySource,
    sink: &mut MemorySink,
) -> Result<(), AllocError> {
    if let Some(words) = line.strip_prefix("then ") {
        write_status(rt, text, words, source, sink)?;
    } else if let Some(name) = line.strip_prefix("given ") {
        give(rt.alloc(), name, source, sink)?;
    }
    Ok(())
}

fn give(
    alloc: Global,
    name: &str,
    source: &mut MemorySource,
    sink: &MemorySink,
) -> Result<(), AllocError> {
    match sink.saved(name.as_bytes()) {
        Some(file) => source.put(alloc, name.as_bytes(), file.as_slice()),
        None => Ok(()),
    }
}

fn write_status(
    rt: &HostRuntime,
    text: &mut String,
    words: &str,
    source: &mut MemorySource,
    sink: &mut MemorySink,
) -> Result<(), AllocError> {
    let status = status_of(rt, words, source, sink)?;
    write!(text, "status {status}\n")
}

fn status_of(
    rt: &HostRuntime,
    words: &str,
    source: &mut MemorySource,
    sink: &mut MemorySink,
) -> Result<u8, AllocError> {
    let words = words_of(rt.alloc(), words)?;
    Ok(vortex(rt.alloc(), words.as_slice(), source, sink, &mut rt.steps()))
}

/// Writes the status of a call that serves a document.
fn write_served(
    rt: &HostRuntime,
    text: &mut String,
    words: &str,
    source: &mut MemorySource,
    inlet: &mut MemoryInlet,
    sink: &mut MemorySink,
) -> Result<(), AllocError> {
    let words = words_of(rt.alloc(), words)?;
    let status = serve(
        rt.alloc(),
        words.as_slice(),
        source,
        inlet,
        sink,
        &mut rt.steps(),
    );
    write!(text, "status {status}\n")
}

/// What comes in, where a line behind the first says that something may.
fn requests_of(alloc: Global, lines: &str) -> Result<Option<Bytes>, AllocError> {
    match lines.split_once("\nrequests") {
        None => Ok(None),
        Some((_, behind)) => {
            let mut requests = Bytes::new(alloc);
            append_all(alloc, &mut requests, behind)?;
            Ok(Some(requests))
        }
    }
}

/// Puts what the lines say at the end of bytes.
fn append_all(alloc: Global, bytes: &mut Bytes, lines: &str) -> Result<(), AllocError> {
    for line in lines.split('\n') {
        append(alloc, bytes, line)?;
    }
    Ok(())
}

fn words_of(alloc: Global, text: &str) -> Result<Vec<String>, AllocError> {
    let mut words = Vec::new(alloc);
    if !text.is_empty() {
        push_words(alloc, &mut words, text)?;
    }
    Ok(words)
}

fn push_words(alloc: Global, words: &mut Vec<String>, text: &str) -> Result<(), AllocError> {
    for word in text.split('|') {
        words.push(String::from_str(alloc, word)?)?;
    }
    Ok(())
}

/// The numbers of the lines that begin so.
fn failing(alloc: Global, begin: &str, lines: &str) -> Result<Vec<u64>, AllocError> {
    let mut numbers = Vec::new(alloc);
    for line in lines.split('\n') {
        if let Some(number) = line.strip_prefix(begin) {
            numbers.push(number.parse().unwrap_or(0))?;
        }
    }
    Ok(numbers)
}

/// A file that lines are put into; without a name there is none yet.
#[derive(Drop)]
struct File {
    name: Bytes,
    bytes: Bytes,
}

fn put_files(rt: &HostRuntime, source: &mut MemorySource, lines: &str) -> io::Result<()> {
    let mut file = File {
        name: Bytes::new(rt.alloc()),
        bytes: Bytes::new(rt.alloc()),
    };
    put_each(rt, source, &mut file, lines)
}

/// Puts the files into the source; the one that a line belongs to is lent.
fn put_each(
    rt: &HostRuntime,
    source: &mut MemorySource,
    file: &mut File,
    lines: &str,
) -> io::Result<()> {
    for line in lines.split('\n') {
        fill(rt, file, line)?;
        if !file.name.is_empty() {
            source.put(rt.alloc(), file.name.as_slice(), file.bytes.as_slice())?;
        }
    }
    Ok(())
}

/// Begins a file anew, or puts what a line says at its end.
fn fill(rt: &HostRuntime, file: &mut File, line: &str) -> io::Result<()> {
    let alloc = rt.alloc();
    if let Some((name, taken)) = taken_from(line) {
        file.name = Bytes::from_slice(alloc, name.as_bytes())?;
        file.bytes = Bytes::from_vec(fs::read(rt, taken)?);
    } else if let Some(name) = line.strip_prefix("file ") {
        file.name = Bytes::from_slice(alloc, name.as_bytes())?;
        file.bytes = Bytes::new(alloc);
    } else if line == "requests" {
        file.name = Bytes::new(alloc);
    } else {
        append(alloc, &mut file.bytes, line)?;
    }
    Ok(())
}

/// The name and the real file of a line that takes one.
fn taken_from(line: &str) -> Option<(&str, &str)> {
    line.strip_prefix("take ")?.split_once(' ')
}

/// Puts what a line says at the end of a file.
fn append(alloc: Global, bytes: &mut Bytes, line: &str) -> Result<(), AllocError> {
    if let Some(text) = line.strip_prefix('|') {
        bytes.append(bytes_of(alloc, text)?.as_slice())?;
        bytes.push(b'\n')?;
    } else if let Some(text) = line.strip_prefix('+') {
        bytes.append(bytes_of(alloc, text)?.as_slice())?;
    }
    Ok(())
}

/// Writes the files that are to be shown, and those that are to be compared.
fn write_saved(text: &mut String, sink: &MemorySink, lines: &str) -> Result<(), AllocError> {
    for line in lines.split('\n') {
        if let Some(name) = line.strip_prefix("saved ") {
            text.push_str(name)?;
            write_file(text, name, sink.saved(name.as_bytes()))?;
        } else if let Some(names) = line.strip_prefix("alike ") {
            write_alike(text, names, sink)?;
        }
    }
    Ok(())
}

/// Writes whether two files were saved and are the same.
fn write_alike(text: &mut String, names: &str, sink: &MemorySink) -> Result<(), AllocError> {
    let (name, other) = first_word(names);
    let are = if are_alike(sink.saved(name.as_bytes()), sink.saved(other.as_bytes())) {
        "are alike"
    } else {
        "aren't alike"
    };
    write!(text, "{name} and {other} {are}\n")
}

fn are_alike(file: Option<&Bytes>, other: Option<&Bytes>) -> bool {
    match (file, other) {
        (Some(file), Some(other)) => file.same(other),
        _ => false,
    }
}

fn write_file(text: &mut String, name: &str, file: Option<&Bytes>) -> Result<(), AllocError> {
    match file {
        None => text.push_str(": nothing\n"),
        Some(file) if file.is_empty() => text.push_str(": empty\n"),
        Some(file) => {
            text.push_str(":\n")?;
            if name.ends_with(".dvi") {
                write_hexadecimal(text, file.as_slice())?;
            } else {
                write_bytes(text, file.as_slice())?;
            }
            text.push('\n')
        }
    }
}
