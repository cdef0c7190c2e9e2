//! Cases of the reader of tx_dvitype.
use crate::fonts::{change, contents};
use std::alloc::{AllocError, Global};
use std::io;
use tx_cases::first_word;
use tx_dvi::Placed;
use tx_dvitype::{DviError, ReadPage, Reader};

/// Writes what is read of a file of hexadecimal bytes as a DVI file, by `dvi FILE HOW`, where HOW is `whole`; `first COUNT`,
/// which takes so many bytes; or `changed PLACE VALUE ..`, which gives bytes of it these values. It is what stands on the
/// pages, with a bar behind each thing, or where and by which rule the file is refused.
pub fn write_answer(rt: &HostRuntime, text: &mut String, rest: &str) -> io::Result<()> {
    let (name, how) = first_word(rest);
    let (word, numbers) = first_word(how);
    let mut bytes = contents(rt, name, false)?;
    Ok(write_changed(rt.alloc(), text, &mut bytes, word, numbers)?)
}

fn write_changed(
    alloc: Global,
    text: &mut String,
    bytes: &mut Vec<u8>,
    word: &str,
    numbers: &str,
) -> Result<(), AllocError> {
    match change(bytes, word, numbers) {
        None => text.push_str("malformed"),
        Some(()) => write_read(alloc, text, bytes.as_slice()),
    }
}

fn write_read(alloc: Global, text: &mut String, bytes: &[u8]) -> Result<(), AllocError> {
    match Reader::read(alloc, bytes) {
        Ok(pages) => write_pages(text, pages.as_slice()),
        Err(DviError::BadDvi { place, rule }) => write!(text, "at {place}, rule {}", rule.number()),
        Err(DviError::OutOfMemory) => Err(AllocError),
    }
}

fn write_pages(text: &mut String, pages: &[ReadPage]) -> Result<(), AllocError> {
    for page in pages {
        write_page(text, page)?;
    }
    Ok(())
}

fn write_page(text: &mut String, page: &ReadPage) -> Result<(), AllocError> {
    text.push_str("page")?;
    write_counts(text, &page.counts)?;
    for placed in page.placed.as_slice() {
        write_placed(text, placed)?;
    }
    Ok(())
}

/// Writes numbers, with a space before each, and a bar.
fn write_counts(text: &mut String, counts: &[i32]) -> Result<(), AllocError> {
    for count in counts {
        write!(text, " {count}")?;
    }
    text.push('|')
}

fn write_placed(text: &mut String, placed: &Placed) -> Result<(), AllocError> {
    match placed {
        Placed::Lettered(c) => write!(text, "char {} font {} at {} {}|", c.code, c.font, c.h, c.v),
        Placed::Ruled(r) => write!(text, "rule {} {} at {} {}|", r.height, r.width, r.h, r.v),
        Placed::Noted(s) => write!(text, "special {} at {} {}|", s.text.len(), s.h, s.v),
    }
}
