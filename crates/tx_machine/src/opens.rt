//! How asks are answered by the files, and what the answers show of them.
ghost use Rattle.std.specs.Prelude.{◌≡◌, [], IfOk, OnOk, OnErr};
ghost use Rattle.tx_files.specs.Reads.{noting};
ghost use Rattle.tx_machine.specs.Notes as notes;
ghost use Rattle.tx_machine.specs.Notes.{line_notes, notes_of};
ghost use Rattle.tx_machine.specs.Opens.{bytes_of, reply_to, reading, innermost};

use crate::lists::Opens;
use crate::types::OpenFile;
use std::alloc::{AllocError, Global};
use tx_bytes::Bytes;
use tx_event::{Ask, Reply};
use tx_files::{FileSet, NextLine, Seen, Sight, next_line};

/// The bytes of a file, none where it is absent.
pub fn bytes_of<'a>(files: &'a FileSet, name: &Bytes) -> &'a [u8]
    ensures { result.now ≡ bytes_of files.now name.now }
{
    match files.get(name.as_slice()) {
        Some(bytes) => bytes.as_slice(),
        None => &[],
    }
}

/// What a line shows of its file.
fn line_sight(line: &NextLine) -> Sight
    ensures { result ≡ notes.line_sight line.now }
{
    match line {
        NextLine::Line { end, has_lf: true } => Sight::Line(*end),
        NextLine::Line { .. } | NextLine::End => Sight::End,
    }
}

/// Reads on in the innermost file by one line.
fn read_line(
    alloc: Global,
    files: &FileSet,
    opens: &mut Opens,
    seen: &mut Seen,
) -> Result<Reply, AllocError>
    ensures ok { IfOk result (λ reply. record { reply = reply; opens = opens.new } ≡ reading files.now opens.old (innermost opens.old)) }
    ensures seen { OnOk result (seen.new ≡ noting seen.old (line_notes files.now (innermost opens.old))) }
    ensures err { OnErr result (opens.new ≡ opens.old) }
{
    let Some(file) = opens.innermost() else {
        return Ok(Reply::Ended);
    };
    let bytes = bytes_of(files, &file.name);
    let from = file.offset;
    let line = next_line(bytes, from);
    seen.note(alloc, file.name.as_slice(), line_sight(&line))?;
    match line {
        NextLine::End => Ok(Reply::Ended),
        NextLine::Line { end, has_lf: _ } => {
            let line = Bytes::from_slice(alloc, &bytes[from as usize..end as usize])?;
            opens.move_to(end);
            Ok(Reply::Line(line))
        }
    }
}

/// Replies to an ask by the files and those of them that are open, and notes what the reply shows of them. After want of
/// memory the open files are as before, and the note may have been made.
pub fn reply(
    alloc: Global,
    files: &FileSet,
    opens: &mut Opens,
    seen: &mut Seen,
    ask: Ask,
) -> Result<Reply, AllocError>
    ensures ok { IfOk result (λ reply. record { reply = reply; opens = opens.new } ≡ reply_to files.now opens.old ask) }
    ensures seen { OnOk result (seen.new ≡ noting seen.old (notes_of files.now opens.old ask)) }
    ensures err { OnErr result (opens.new ≡ opens.old) }
{
    match ask {
        Ask::Open(name) => match files.get(name.as_slice()) {
            Some(_) => {
                seen.note(alloc, name.as_slice(), Sight::Opened)?;
                opens.push(OpenFile { name, offset: 0 })?;
                Ok(Reply::Found)
            }
            None => {
                seen.note(alloc, name.as_slice(), Sight::Absent)?;
                Ok(Reply::Absent)
            }
        },
        Ask::Line => read_line(alloc, files, opens, seen),
        Ask::Close => {
            opens.pop();
            Ok(Reply::Closed)
        }
        Ask::Whole(name) => match files.get(name.as_slice()) {
            Some(bytes) => {
                seen.note(alloc, name.as_slice(), Sight::Whole)?;
                Ok(Reply::Whole(bytes.clone()?))
            }
            None => {
                seen.note(alloc, name.as_slice(), Sight::Absent)?;
                Ok(Reply::Absent)
            }
        },
    }
}
