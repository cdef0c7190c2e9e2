//! Cases of tx_io: the real folder and standard output.
use std::alloc::{AllocError, Global};
use std::{fs, io};
use tx_cases::{bytes_of, first_word, write_bytes};
use tx_io::{DirSink, DirSource, Fetched, FilesRead, Put, Sink, Source};

/// The answer to a call that each source or sink has.
fn write_called<S: Source, K: Sink>(
    alloc: Global,
    text: &mut String,
    source: &mut S,
    sink: &mut K,
    word: &str,
    rest: &str,
) -> Result<(), AllocError> {
    let (name, bytes) = first_word(rest);
    match word {
        "fetch" => write_fetched(text, source.fetch(alloc, rest.as_bytes())),
        "say" => write_put(text, sink.say(bytes_of(alloc, rest)?.as_slice())),
        "save" => write_put(text, sink.save(name.as_bytes(), bytes.as_bytes())),
        _ => text.push_str("malformed"),
    }
}

fn write_fetched(text: &mut String, answer: Fetched) -> Result<(), AllocError> {
    match answer {
        Fetched::Found(bytes) => write_bytes(text, bytes.as_slice()),
        Fetched::Absent => text.push_str("absent"),
        Fetched::Failed => text.push_str("failed"),
        Fetched::OutOfMemory => Err(AllocError),
    }
}

fn write_put(text: &mut String, put: Put) -> Result<(), AllocError> {
    match put {
        Put::Done => text.push_str("done"),
        Put::Failed => text.push_str("failed"),
        Put::OutOfMemory => Err(AllocError),
    }
}

/// What comes of the current folder, a path and standard output by lines of `fetch NAME`, `along PATH NAME`, `say TEXT` and
/// `save NAME TEXT`, and of `write NAME TEXT`, `grow NAME SIZE`, `read NAME`, `remove NAME`, `make FOLDER` and `unmake FOLDER`, which
/// are done by std's file calls.
pub fn write_folder(rt: &HostRuntime, text: &mut String, lines: &str) -> io::Result<()> {
    let read = FilesRead::new(rt.alloc());
    write_calls(rt, text, &read, lines)
}

fn write_calls(
    rt: &HostRuntime,
    text: &mut String,
    read: &FilesRead,
    lines: &str,
) -> io::Result<()> {
    for line in lines.split('\n') {
        write_call(rt, text, read, line)?;
        text.push('\n')?;
    }
    Ok(())
}

fn write_call(rt: &HostRuntime, text: &mut String, read: &FilesRead, line: &str) -> io::Result<()> {
    let (word, rest) = first_word(line);
    match word {
        "fetch" | "say" | "save" => Ok(write_outside(rt, text, read, word, rest)?),
        "along" => Ok(write_along(rt, text, read, rest)?),
        _ => write_done(rt, text, word, rest),
    }
}

/// What comes of a call on the folder, of which these files were read before.
fn write_outside(
    rt: &HostRuntime,
    text: &mut String,
    read: &FilesRead,
    word: &str,
    rest: &str,
) -> Result<(), AllocError> {
    let mut source = DirSource::new(rt, read);
    let mut sink = DirSink::new(rt, rt.alloc(), read);
    write_called(rt.alloc(), text, &mut source, &mut sink, word, rest)
}

/// What is fetched of the current folder and along a path, by the path and a name.
fn write_along(
    rt: &HostRuntime,
    text: &mut String,
    read: &FilesRead,
    rest: &str,
) -> Result<(), AllocError> {
    let (path, name) = first_word(rest);
    let mut source = DirSource::along(rt, path, read);
    write_fetched(text, source.fetch(rt.alloc(), name.as_bytes()))
}

fn write_done(rt: &HostRuntime, text: &mut String, word: &str, rest: &str) -> io::Result<()> {
    let (name, given) = first_word(rest);
    match word {
        "write" => fs::write(rt, name, given)?,
        "grow" => fs::create(rt, name)?.set_len(given.parse().unwrap_or(0))?,
        "read" => return write_read(rt, text, name),
        "remove" => fs::remove_file(rt, name)?,
        "make" => fs::create_dir(rt, name)?,
        "unmake" => fs::remove_dir(rt, name)?,
        _ => return Ok(text.push_str("malformed")?),
    }
    Ok(text.push_str("done")?)
}

fn write_read(rt: &HostRuntime, text: &mut String, name: &str) -> io::Result<()> {
    let read = fs::read_to_string(rt, name)?;
    Ok(text.push_str(read.as_str())?)
}
