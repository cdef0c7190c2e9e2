//! The files of a seed.
ghost use Rattle.std.specs.Prelude.{◌≡◌, ◌≤◌, [], IfOk, OnOk};
ghost use Rattle.std.specs.List.{AllByRecursion};
ghost use Rattle.tx_script.specs.Text.{text as script_text, IsTextOf};
ghost use Rattle.tx_gen.specs.Book.{book_of};
ghost use Rattle.tx_gen.specs.Font.{font_file};
ghost use Rattle.tx_gen.specs.Edits.{commands_of, IsReplacement};
ghost use Rattle.tx_gen.specs.Made.{generated};

use crate::book::append_book;
use crate::draws::Draws;
use crate::edits::append_edits;
use crate::font::font;
use crate::made::Made;
use std::alloc::{AllocError, Global};
use tx_bytes::Bytes;
use tx_list::Items;

/// Fills files that are empty, and notes where each page of the document begins.
fn fill(seed: u32, pages: u32, starts: &mut Items<u64>, made: &mut Made) -> Result<(), AllocError>
    requires none { starts.old ≡ [] }
    requires no_book { made.old.book ≡ [] }
    requires no_font { made.old.font ≡ [] }
    requires no_script { made.old.script ≡ [] }
    ensures book { OnOk result (made.new.book ≡ book_of seed pages) }
    ensures font { OnOk result (made.new.font ≡ font_file) }
    ensures script { OnOk result (made.new.script ≡ script_text (commands_of seed pages)) }
{
    let mut draws = Draws::new(seed);
    append_book(&mut made.book, &mut draws, pages, starts)?;
    made.font.append(font())?;
    append_edits(&mut made.script, &mut draws, starts.as_slice())?;
    Ok(())
}

/// A document of so many pages, the metrics of its font, and a script of as many edits of it, all of them drawn from a
/// seed. Its only error is want of memory.
pub fn make(alloc: Global, seed: u32, pages: u32) -> Result<Made, AllocError>
    ensures made { IfOk result (λ made. made ≡ generated seed pages) }

    // A script can name each place of a document of up to 1000 pages.
    ensures reads { IfOk result (λ made. pages ≤ 1000 → IsTextOf made.script (commands_of seed pages)) }
    ensures replaces { IfOk result (λ made. AllByRecursion (IsReplacement made.book) (commands_of seed pages)) }
{
    let mut starts = Items::new(alloc);
    let mut made = Made {
        book: Bytes::new(alloc),
        font: Bytes::new(alloc),
        script: Bytes::new(alloc),
    };
    fill(seed, pages, &mut starts, &mut made)?;
    Ok(made)
}
