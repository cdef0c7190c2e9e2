//! The file of a page by itself.
ghost use Rattle.std.specs.Prelude.{◌≡◌, ◌++◌, ◌∷◌, [], pos, length, IfOk, OnOk};
ghost use Rattle.std.specs.List.{All, flat_map};
ghost use Rattle.tx_dvi.specs.Dvi as dvi;
ghost use Rattle.tx_dvi.specs.Page.{IsNamed};
ghost use Rattle.tx_dviselect.specs.Alone as spec;

use crate::uses::borrowed;
use std::alloc::{AllocError, Global};
use std::slice;
use tx_bytes::Bytes;
use tx_dvi::{FontDefinition, PageBody, assemble, definition, four_bytes, two_bytes, units};
use tx_list::Items;

const BOP: u8 = 139;

const EOP: u8 = 140;

const POST: u8 = 248;

const POST_POST: u8 = 249;

const FORMAT_NUMBER: u8 = 2;

const FILLER: u8 = 223;

/// Appends the fonts that a page defines.
fn append_fonts_of(
    alloc: Global,
    fonts: &mut Items<FontDefinition>,
    page: &PageBody,
) -> Result<(), AllocError>
    ensures fonts { OnOk result (fonts.new ≡ fonts.old ++ page.now.fonts) }
    ensures names { All IsNamed page.now.fonts }
{
    // Most pages define none.
    let defined = page.fonts();
    if defined.is_empty() {
        return Ok(());
    }
    let mut more = Items::from_slice(alloc, defined)?;
    fonts.append(&mut more)
}

/// Appends the fonts that pages define, page by page. Its only error is want of memory.
pub fn append_fonts(
    alloc: Global,
    fonts: &mut Items<FontDefinition>,
    pages: &[PageBody],
) -> Result<(), AllocError>
    ensures fonts { OnOk result (fonts.new ≡ fonts.old ++ dvi.fonts_of pages.now) }
    ensures names { OnOk result (All IsNamed fonts.old → All IsNamed fonts.new) }
{
    for page in pages {
        append_fonts_of(alloc, fonts, page)?;
    }
    Ok(())
}

/// The preamble of a page's file. It doesn't tell of fonts, so it is that of the page as it is.
fn preamble(alloc: Global, page: &PageBody) -> Result<Bytes, AllocError>
    ensures { IfOk result (λ file. file ≡ dvi.preamble page.now) }
{
    let file = assemble(alloc, slice::from_ref(page))?;
    let bytes = file.as_slice();
    let len = 15 + usize::from(bytes[14]);
    Bytes::from_slice(alloc, &bytes[..len])
}

/// Appends the definition of a font.
fn append_definition(
    alloc: Global,
    file: &mut Bytes,
    font: &FontDefinition,
) -> Result<(), AllocError>
    requires { IsNamed font.now }
    ensures { OnOk result (file.new ≡ file.old ++ dvi.definition_bytes font.now) }
{
    let bytes = definition(alloc, font)?;
    file.append(bytes.as_slice())
}

/// Appends the definitions of fonts, in their order.
fn append_all(alloc: Global, file: &mut Bytes, fonts: &[FontDefinition]) -> Result<(), AllocError>
    requires { All IsNamed fonts.now }
    ensures { OnOk result (file.new ≡ file.old ++ flat_map dvi.definition_bytes fonts.now) }
{
    for font in fonts {
        append_definition(alloc, file, font)?;
    }
    Ok(())
}

/// Appends the definitions of the fonts that have this number.
fn append_numbered(
    alloc: Global,
    file: &mut Bytes,
    fonts: &[FontDefinition],
    number: u8,
) -> Result<(), AllocError>
    requires { All IsNamed fonts.now }
    ensures { OnOk result (file.new ≡ file.old ++ flat_map dvi.definition_bytes (dvi.numbered number fonts.now)) }
{
    for font in fonts {
        if font.number == number {
            append_definition(alloc, file, font)?;
        }
    }
    Ok(())
}

/// Appends the definitions of fonts, from the last number to the first.
fn append_definitions(
    alloc: Global,
    file: &mut Bytes,
    fonts: &[FontDefinition],
) -> Result<(), AllocError>
    requires { All IsNamed fonts.now }
    ensures { OnOk result (file.new ≡ file.old ++ dvi.definitions_below 256 fonts.now) }
{
    let mut below: u16 = 256;
    while below > 0 {
        below -= 1;
        append_numbered(alloc, file, fonts, below as u8)?;
    }
    Ok(())
}

/// Appends numbers of four bytes.
fn append_counts(file: &mut Bytes, counts: &[i32]) -> Result<(), AllocError>
    ensures { OnOk result (file.new ≡ file.old ++ flat_map dvi.four_bytes counts.now) }
{
    for count in counts {
        file.append(&four_bytes(*count))?;
    }
    Ok(())
}

/// Appends a page that has no page before it, with these fonts defined at its beginning.
fn append_page(
    alloc: Global,
    file: &mut Bytes,
    page: &PageBody,
    fonts: &[FontDefinition],
) -> Result<(), AllocError>
    requires { All IsNamed fonts.now }
    ensures { OnOk result (file.new ≡ file.old ++ spec.page_bytes page.now fonts.now) }
{
    file.push(BOP)?;
    append_counts(file, &page.parts().counts)?;
    file.append(&four_bytes(-1))?;
    append_all(alloc, file, fonts)?;
    file.append(page.body())?;
    file.push(EOP)
}

/// Appends the sizes of a page, and that it is the only one.
fn append_sizes(file: &mut Bytes, page: &PageBody) -> Result<(), AllocError>
    ensures { OnOk result (file.new ≡ file.old ++ dvi.sizes_bytes (page.now ∷ [])) }
{
    let parts = page.parts();
    file.append(&four_bytes(parts.height.max(0)))?;
    file.append(&four_bytes(parts.width.max(0)))?;
    file.append(&two_bytes(parts.nesting))?;
    file.append(&two_bytes(1))
}

/// Appends the postamble, where the page stands at this place and these are all fonts.
fn append_post(
    alloc: Global,
    file: &mut Bytes,
    place: i32,
    page: &PageBody,
    fonts: &[FontDefinition],
) -> Result<(), AllocError>
    requires { All IsNamed fonts.now }
    ensures { OnOk result (file.new ≡ file.old ++ spec.post_bytes place page.now fonts.now) }
{
    file.push(POST)?;
    file.append(&four_bytes(place))?;
    file.append(&units(page.parts().mag))?;
    append_sizes(file, page)?;
    append_definitions(alloc, file, fonts)
}

/// Appends where the postamble stands.
fn append_post_post(file: &mut Bytes, place: i32) -> Result<(), AllocError>
    ensures { OnOk result (file.new ≡ file.old ++ dvi.post_post_bytes place) }
{
    file.push(POST_POST)?;
    file.append(&four_bytes(place))?;
    file.push(FORMAT_NUMBER)
}

/// Fills a file up.
fn fill(file: &mut Bytes) -> Result<(), AllocError>
    ensures { OnOk result (file.new ≡ dvi.filled file.old) }
{
    let count = 4 + (4 - file.len() % 4) % 4;
    file.append(&[FILLER; 7][..count])
}

/// Where a file ends, as its pointers tell places. Its only error stands for want of memory, where that is past 2^31 bytes.
fn end_of(file: &Bytes) -> Result<i32, AllocError>
    ensures { IfOk result (λ place. place ≡ pos (length file.now)) }
{
    let len = file.len();
    if len > 0x7fff_ffff {
        return Err(AllocError);
    }
    Ok(len as i32)
}

/// A page as a DVI file of its own, where earlier pages of its document define these fonts: those of them that it uses are defined at
/// its beginning, and all else of it is as it stands there. Its only error is want of memory.
pub fn page_file(
    alloc: Global,
    earlier: &[FontDefinition],
    page: &PageBody,
) -> Result<Bytes, AllocError>
    requires { All IsNamed earlier.now }
    ensures { IfOk result (λ file. file ≡ spec.page_file earlier.now page.now) }
{
    let mut fonts = borrowed(alloc, earlier, page.body())?;
    let mut file = preamble(alloc, page)?;
    let start = end_of(&file)?;
    append_page(alloc, &mut file, page, fonts.as_slice())?;
    let place = end_of(&file)?;
    append_fonts_of(alloc, &mut fonts, page)?;
    append_post(alloc, &mut file, start, page, fonts.as_slice())?;
    append_post_post(&mut file, place)?;
    fill(&mut file)?;
    Ok(file)
}
