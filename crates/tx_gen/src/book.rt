//! The document: letters, words, lines and pages, each put at the end of a text.
ghost use Rattle.std.specs.Prelude.{◌≡◌, ◌++◌, ◌∷◌, [], length, OnOk};
ghost use Rattle.tx_gen.specs.Draws.{next, times};
ghost use Rattle.tx_gen.specs.Book.{letter, letter_text, word, spaced_word, line, page, opening, begun, book_of, page_starts};

use crate::draws::Draws;
use std::alloc::AllocError;
use tx_bytes::Bytes;
use tx_list::Items;

/// A letter, an a or a b.
pub fn letter(draws: &mut Draws) -> u8
    ensures letter { result ≡ letter draws.old }
    ensures draws { draws.new ≡ next draws.old }
{
    b'a' + draws.draw(2) as u8
}

fn append_letter(text: &mut Bytes, draws: &mut Draws) -> Result<(), AllocError>
    ensures text { OnOk result (text.new ≡ text.old ++ (letter_text draws.old).0) }
    ensures draws { OnOk result (draws.new ≡ (letter_text draws.old).1) }
{
    text.push(letter(draws))?;
    Ok(())
}

fn append_letters(text: &mut Bytes, draws: &mut Draws, count: u64) -> Result<(), AllocError>
    ensures text { OnOk result (text.new ≡ text.old ++ (times count letter_text draws.old).0) }
    ensures draws { OnOk result (draws.new ≡ (times count letter_text draws.old).1) }
{
    for _letter in 0..count {
        append_letter(text, draws)?;
    }
    Ok(())
}

/// Puts a word of one to six letters at the end.
#[tactic(auto, unfolding(crate::specs::Book::word))]
fn append_word(text: &mut Bytes, draws: &mut Draws) -> Result<(), AllocError>
    ensures text { OnOk result (text.new ≡ text.old ++ (word draws.old).0) }
    ensures draws { OnOk result (draws.new ≡ (word draws.old).1) }
{
    let count = 1 + draws.draw(6);
    append_letters(text, draws, count)?;
    Ok(())
}

fn append_spaced_word(text: &mut Bytes, draws: &mut Draws) -> Result<(), AllocError>
    ensures text { OnOk result (text.new ≡ text.old ++ (spaced_word draws.old).0) }
    ensures draws { OnOk result (draws.new ≡ (spaced_word draws.old).1) }
{
    text.push(b' ')?;
    append_word(text, draws)?;
    Ok(())
}

fn append_spaced_words(text: &mut Bytes, draws: &mut Draws) -> Result<(), AllocError>
    ensures text { OnOk result (text.new ≡ text.old ++ (times 9 spaced_word draws.old).0) }
    ensures draws { OnOk result (draws.new ≡ (times 9 spaced_word draws.old).1) }
{
    for _word in 0..9u32 {
        append_spaced_word(text, draws)?;
    }
    Ok(())
}

/// Puts a line of ten words at the end.
#[tactic(auto, unfolding(crate::specs::Book::line))]
fn append_line(text: &mut Bytes, draws: &mut Draws) -> Result<(), AllocError>
    ensures text { OnOk result (text.new ≡ text.old ++ (line draws.old).0) }
    ensures draws { OnOk result (draws.new ≡ (line draws.old).1) }
{
    append_word(text, draws)?;
    append_spaced_words(text, draws)?;
    text.push(b'\n')?;
    Ok(())
}

fn append_lines(text: &mut Bytes, draws: &mut Draws) -> Result<(), AllocError>
    ensures text { OnOk result (text.new ≡ text.old ++ (times 6 line draws.old).0) }
    ensures draws { OnOk result (draws.new ≡ (times 6 line draws.old).1) }
{
    for _line in 0..6u32 {
        append_line(text, draws)?;
    }
    Ok(())
}

/// Puts a page of six lines at the end.
#[tactic(auto, unfolding(crate::specs::Book::page))]
fn append_page(text: &mut Bytes, draws: &mut Draws) -> Result<(), AllocError>
    ensures text { OnOk result (text.new ≡ text.old ++ (page draws.old).0) }
    ensures draws { OnOk result (draws.new ≡ (page draws.old).1) }
{
    append_lines(text, draws)?;
    text.append(b"\n\\vfill\\penalty-10000\n")?;
    Ok(())
}

/// Notes where a page begins, and puts it at the end.
fn append_noted_page(
    text: &mut Bytes,
    draws: &mut Draws,
    starts: &mut Items<u64>,
) -> Result<(), AllocError>
    ensures text { OnOk result (text.new ≡ text.old ++ (page draws.old).0) }
    ensures draws { OnOk result (draws.new ≡ (page draws.old).1) }
    ensures starts { OnOk result (starts.new ≡ starts.old ++ length text.old ∷ []) }
{
    starts.push(text.len() as u64)?;
    append_page(text, draws)?;
    Ok(())
}

/// Puts pages behind the first line, and notes where each begins.
fn append_pages(
    text: &mut Bytes,
    draws: &mut Draws,
    pages: u32,
    starts: &mut Items<u64>,
) -> Result<(), AllocError>
    requires opened { text.old ≡ opening }
    requires none { starts.old ≡ [] }
    ensures text { OnOk result (text.new ≡ begun draws.old pages) }
    ensures draws { OnOk result (draws.new ≡ (times pages page draws.old).1) }
    ensures starts { OnOk result (starts.new ≡ page_starts draws.old pages) }
{
    for _page in 0..pages {
        append_noted_page(text, draws, starts)?;
    }
    Ok(())
}

/// The line before the first page.
#[tactic(auto, unfolding(crate::specs::Book::opening))]
fn opening() -> &'static [u8]
    ensures { result.now ≡ opening }
{
    b"\\catcode`\\{=1 \\catcode`\\}=2 \\hsize=200pt \\vsize=100pt \\parfillskip=0pt plus 1fil \\font\\f=gen \\f\n"
}

/// Puts the whole document into an empty text, and notes where each page begins, counted in bytes from the start.
pub fn append_book(
    text: &mut Bytes,
    draws: &mut Draws,
    pages: u32,
    starts: &mut Items<u64>,
) -> Result<(), AllocError>
    requires empty { text.old ≡ [] }
    requires none { starts.old ≡ [] }
    ensures text { OnOk result (text.new ≡ book_of draws.old pages) }
    ensures draws { OnOk result (draws.new ≡ (times pages page draws.old).1) }
    ensures starts { OnOk result (starts.new ≡ page_starts draws.old pages) }
{
    text.append(opening())?;
    append_pages(text, draws, pages, starts)?;
    text.append(b"\\end\n")?;
    Ok(())
}
