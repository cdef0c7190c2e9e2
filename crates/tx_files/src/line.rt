//! The lines of a file.
ghost use Rattle.std.specs.Prelude.{◌≡◌, position};
ghost use Rattle.tx_files.specs.Lines.{IsLineWithin, is_line_feed, line_count, next_line_at};

/// Where the line that begins at a place of a file ends.
#[derive(Clone, Copy)]
pub enum NextLine {
    /// The line goes up to `end` bytes from the file's start, and its last byte is LF or else the file's last byte.
    Line { end: u64, has_lf: bool },
    /// No line begins at the place: it is the file's end, or past it.
    End,
}

/// How many bytes stand before the first LF.
fn line_feed_in(bytes: &[u8]) -> Option<usize>
    ensures { result ≡ position is_line_feed bytes.now }
{
    bytes.iter().position(|b| *b == b'\n')
}

/// The line of a file's bytes that begins at `from`; at the file's end, or past it, there is none. It takes no memory.
pub fn next_line(bytes: &[u8], from: u64) -> NextLine
    ensures line { result ≡ next_line_at bytes.now from }
    ensures within { IsLineWithin bytes.now from result }
{
    if bytes.len() as u64 <= from {
        return NextLine::End;
    }
    match line_feed_in(&bytes[from as usize..]) {
        Some(at) => NextLine::Line {
            end: from + at as u64 + 1,
            has_lf: true,
        },
        None => NextLine::Line {
            end: bytes.len() as u64,
            has_lf: false,
        },
    }
}

/// How many lines the bytes make up: one for each LF, and one for what follows the last of them, if anything does.
pub fn line_count(bytes: &[u8]) -> u64
    ensures { result ≡ line_count bytes.now }
{
    let finished = bytes.iter().filter(|b| **b == b'\n').count() as u64;
    match bytes.last() {
        None | Some(b'\n') => finished,
        Some(_) => finished + 1,
    }
}
