//! The next request that comes in.
ghost use Rattle.std.specs.Prelude.{◌≡◌, false, take};
ghost use Rattle.tx_io.specs.Inlet.{line_of};
ghost use Rattle.tx_request.specs.Reading.{bytes_at, change_at, change_behind, changes_at, edit_behind, request_behind};
ghost use Rattle.tx_request.specs.Streaming.{AsksOf, Refuses, StoppedCause, StreamsOf, Took, came_to, is_whole, most_line, refused_in};
ghost use Rattle.tx_request.specs.Requests.{IsNext, NextCause};

use crate::first::{change_line, first_line};
use crate::head::{ChangeLine, EditLine, Head};
use crate::request::{FileContents, Next, Request};
use crate::stopped::Stopped;
use std::alloc::Global;
use tx_bytes::Bytes;
use tx_files::{Change, Edit, Name};
use tx_io::{Came, Inlet, Passed};
use tx_list::Items;
use tx_script::{Command, Fault, Rule};

/// No line with which a request begins is longer, in bytes: three numbers of ten digits, a name of 255 bytes, a word, and what stands
/// between them.
const MOST_LINE: usize = 512;

/// What came, if it could be read.
fn here(came: Came) -> Result<Bytes, Stopped>
    ensures { result ≡ came_to came }
{
    match came {
        Came::Here(bytes) => Ok(bytes),
        Came::Failed => Err(Stopped::Failed),
        Came::OutOfMemory => Err(Stopped::OutOfMemory),
    }
}

/// The next line with its LF, or as much of it as a line with which a request begins may have.
fn next_line<I: Inlet>(alloc: Global, inlet: &mut I) -> Result<Bytes, Stopped>
    ensures took { Took result (λ bytes. take most_line (line_of bytes)) (I.left inlet.old) (I.left inlet.new) }
    ensures cause { StoppedCause result (I.faults inlet.old) (I.faults inlet.new) }
{
    here(inlet.line(alloc, MOST_LINE))
}

/// So many bytes, or what there is of them.
fn next_bytes<I: Inlet>(alloc: Global, count: usize, inlet: &mut I) -> Result<Bytes, Stopped>
    ensures took { Took result (λ bytes. take count bytes) (I.left inlet.old) (I.left inlet.new) }
    ensures cause { StoppedCause result (I.faults inlet.old) (I.faults inlet.new) }
{
    here(inlet.bytes(alloc, count))
}

/// Bytes behind a line are refused.
fn refused(rule: Rule) -> Stopped
    ensures { result ≡ Stopped.Refused rule false }
{
    Stopped::Refused {
        rule,
        passed: false,
    }
}

/// Whether a line came with its LF.
fn is_whole(line: &[u8]) -> bool
    ensures { result ≡ is_whole line.now }
{
    match line.last() {
        Some(byte) => *byte == b'\n',
        None => false,
    }
}

/// Why a line was refused.
fn refused_in(line: &[u8], fault: Fault) -> Stopped
    ensures { result ≡ refused_in (is_whole line.now) fault }
{
    match fault {
        Fault::Broken(broken) => Stopped::Refused {
            rule: broken.rule,
            passed: is_whole(line),
        },
        Fault::OutOfMemory => Stopped::OutOfMemory,
    }
}

/// The bytes that stand behind a line, so many, and the LF behind them.
fn bytes_behind<I: Inlet>(alloc: Global, size: u64, inlet: &mut I) -> Result<Bytes, Stopped>
    ensures streams { StreamsOf result (bytes_at size) (I.left inlet.old) (I.left inlet.new) }
    ensures cause { StoppedCause result (I.faults inlet.old) (I.faults inlet.new) }
{
    let bytes = next_bytes(alloc, size as usize, inlet)?;
    if (bytes.len() as u64) < size {
        return Err(refused(Rule::Put));
    }
    let behind = next_bytes(alloc, 1, inlet)?;
    if !is_whole(behind.as_slice()) {
        return Err(refused(Rule::LineFeed));
    }
    Ok(bytes)
}

/// An edit, behind its line.
fn edit<I: Inlet>(alloc: Global, line: EditLine, inlet: &mut I) -> Result<Edit, Stopped>
    ensures streams { StreamsOf result (edit_behind line) (I.left inlet.old) (I.left inlet.new) }
    ensures cause { StoppedCause result (I.faults inlet.old) (I.faults inlet.new) }
{
    let put = bytes_behind(alloc, line.size, inlet)?;
    Ok(Edit {
        name: line.name,
        place: line.place,
        removed: line.removed,
        put,
    })
}

/// A change, behind its line.
fn change<I: Inlet>(alloc: Global, line: ChangeLine, inlet: &mut I) -> Result<Change, Stopped>
    ensures streams { StreamsOf result (change_behind line) (I.left inlet.old) (I.left inlet.new) }
    ensures cause { StoppedCause result (I.faults inlet.old) (I.faults inlet.new) }
{
    match line {
        ChangeLine::Edit(line) => Ok(Change::Edit(edit(alloc, line, inlet)?)),
        ChangeLine::Remove(name) => Ok(Change::Remove(name)),
    }
}

/// A change of a batch.
fn next_change<I: Inlet>(alloc: Global, inlet: &mut I) -> Result<Change, Stopped>
    ensures streams { StreamsOf result change_at (I.left inlet.old) (I.left inlet.new) }
    ensures cause { StoppedCause result (I.faults inlet.old) (I.faults inlet.new) }
{
    let line = next_line(alloc, inlet)?;
    match change_line(alloc, line.as_slice()) {
        Ok((found, _)) => change(alloc, found, inlet),
        Err(fault) => Err(refused_in(line.as_slice(), fault)),
    }
}

/// The changes of a batch, so many.
fn changes<I: Inlet>(alloc: Global, count: u64, inlet: &mut I) -> Result<Items<Change>, Stopped>
    ensures streams { StreamsOf result (changes_at count) (I.left inlet.old) (I.left inlet.new) }
    ensures cause { StoppedCause result (I.faults inlet.old) (I.faults inlet.new) }
{
    let mut changes = Items::new(alloc);
    for _at in 0..count {
        let change = next_change(alloc, inlet)?;
        changes.push(change)?;
    }
    Ok(changes)
}

/// A request, behind the line with which it begins.
fn behind<I: Inlet>(alloc: Global, head: Head, inlet: &mut I) -> Result<Request, Stopped>
    ensures streams { StreamsOf result (request_behind head) (I.left inlet.old) (I.left inlet.new) }
    ensures cause { StoppedCause result (I.faults inlet.old) (I.faults inlet.new) }
{
    match head {
        Head::Change(line) => {
            let change = change(alloc, line, inlet)?;
            Ok(Request::Command(Command::Change(change)))
        }
        Head::Batch(count) => {
            let changes = changes(alloc, count, inlet)?;
            Ok(Request::Command(Command::Batch(changes)))
        }
        Head::Save(name) => Ok(Request::Command(Command::Save(name))),
        Head::Locate(at) => Ok(Request::Command(Command::Locate(at))),
        Head::File { size, name } => {
            let contents = bytes_behind(alloc, size, inlet)?;
            Ok(Request::File(FileContents { name, contents }))
        }
        Head::Page(number) => Ok(Request::Page(number)),
        Head::Log => Ok(Request::Log),
        Head::LogOf(number) => Ok(Request::LogOf(number)),
    }
}

/// The next request, unless nothing more comes.
fn request<I: Inlet>(alloc: Global, inlet: &mut I) -> Result<Option<Request>, Stopped>
    ensures streams { AsksOf result (I.left inlet.old) (I.left inlet.new) }
    ensures cause { StoppedCause result (I.faults inlet.old) (I.faults inlet.new) }
{
    let line = next_line(alloc, inlet)?;
    if line.is_empty() {
        return Ok(None);
    }
    match first_line(alloc, line.as_slice()) {
        Ok((head, _)) => Ok(Some(behind(alloc, head, inlet)?)),
        Err(fault) => Err(refused_in(line.as_slice(), fault)),
    }
}

/// Goes to where the next request begins behind bytes that are refused.
fn refuse<I: Inlet>(rule: Rule, passed: bool, inlet: &mut I) -> Next
    ensures refused { Refuses result rule passed (I.left inlet.old) (I.left inlet.new) }
    ensures cause { NextCause result (I.faults inlet.old) (I.faults inlet.new) }
{
    if passed {
        return Next::Refused(rule);
    }
    match inlet.pass_line() {
        Passed::Done => Next::Refused(rule),
        Passed::Failed => Next::Failed,
    }
}

/// What comes in next. A request is taken whole, and no byte more; bytes that begin none are passed over up to where the next one
/// may begin.
pub fn next_request<I: Inlet>(alloc: Global, inlet: &mut I) -> Next
    ensures next { IsNext result (I.left inlet.old) (I.left inlet.new) }
    ensures cause { NextCause result (I.faults inlet.old) (I.faults inlet.new) }
{
    match request(alloc, inlet) {
        Ok(Some(request)) => Next::Asks(request),
        Ok(None) => Next::Over,
        Err(Stopped::Refused { rule, passed }) => refuse(rule, passed, inlet),
        Err(Stopped::Failed) => Next::Failed,
        Err(Stopped::OutOfMemory) => Next::OutOfMemory,
    }
}
