//! The DVI file of a list of pages (TeX: The Program, sections 583 to 590).
ghost use Rattle.std.specs.Prelude.{◌≡◌, ◌≤◌, ◌+◌, ◌*◌, ◌++◌, ◌∷◌, ◌<◌, [], pos, length, IfOk, OnOk};
ghost use Rattle.std.specs.List.{All, flat_map};
ghost use Rattle.tx_dvi.specs.Dvi as spec;
ghost use Rattle.tx_dvi.specs.Page.{IsNamed};

use crate::font::FontDefinition;
use crate::page::{DateParameters, PageBody};
use byteorder::{BigEndian, ByteOrder};
use std::alloc::{AllocError, Global};
use tx_bytes::Bytes;
use tx_list::Items;

const BOP: u8 = 139;

const EOP: u8 = 140;

const FNT_DEF1: u8 = 243;

const PRE: u8 = 247;

const POST: u8 = 248;

const POST_POST: u8 = 249;

const FORMAT_NUMBER: u8 = 2;

const FILLER: u8 = 223;

/// A number of four bytes, the highest first, in two's complement.
#[tactic(auto, unfolding(crate::specs::Dvi::four_bytes))]
pub fn four_bytes(n: i32) -> [u8; 4]
    ensures { result ≡ spec.four_bytes n }
{
    let mut bytes = [0; 4];
    BigEndian::write_i32(&mut bytes, n);
    bytes
}

/// A number of four bytes without sign, the highest first.
#[tactic(auto, unfolding(crate::specs::Dvi::unsigned_bytes))]
pub fn unsigned_bytes(n: u32) -> [u8; 4]
    ensures { result ≡ spec.unsigned_bytes n }
{
    let mut bytes = [0; 4];
    BigEndian::write_u32(&mut bytes, n);
    bytes
}

/// What holds of a definition whose name isn't too long.
fn fits(font: &FontDefinition)
    requires { IsNamed font.now }
    ensures { spec.IsDefinable font.now }
{
    let _number = font.number;
    let _checksum = font.checksum;
    let _size = font.size;
    let _design_size = font.design_size;
}

/// Appends the definition of a font.
#[tactic(auto, unfolding(crate::specs::Dvi::definition_bytes))]
fn append_definition(file: &mut Bytes, font: &FontDefinition) -> Result<(), AllocError>
    requires { IsNamed font.now }
    ensures { OnOk result (file.new ≡ file.old ++ spec.definition_bytes font.now) }
{
    file.append(&[FNT_DEF1, font.number])?;
    file.append(&unsigned_bytes(font.checksum))?;
    file.append(&unsigned_bytes(font.size))?;
    file.append(&unsigned_bytes(font.design_size))?;
    file.append(&[0, font.name.len() as u8])?;
    file.append(font.name.as_slice())
}

/// The definition of a font. Its only error is want of memory.
pub fn definition(alloc: Global, font: &FontDefinition) -> Result<Bytes, AllocError>
    requires { IsNamed font.now }
    ensures bytes { IfOk result (λ bytes. bytes ≡ spec.definition_bytes font.now) }
    ensures fits { OnOk result (spec.IsDefinable font.now) }
{
    fits(font);
    let mut bytes = Bytes::new(alloc);
    append_definition(&mut bytes, font)?;
    Ok(bytes)
}

/// A number of two bytes, the highest first.
#[tactic(auto, unfolding(crate::specs::Dvi::two_bytes))]
pub fn two_bytes(n: u16) -> [u8; 2]
    ensures { result ≡ spec.two_bytes n }
{
    let mut bytes = [0; 2];
    BigEndian::write_u16(&mut bytes, n);
    bytes
}

fn two_digits(n: i32) -> [u8; 2]
    ensures { result ≡ spec.two_digits n }
{
    let n = n.unsigned_abs();
    [b'0' + (n % 100 / 10) as u8, b'0' + (n % 10) as u8]
}

/// What an sp is, by the numerator and denominator of TeX and by \mag, as the preamble and the postamble tell it.
#[tactic(auto, unfolding(crate::specs::Dvi::four_bytes))]
pub fn units(mag: u16) -> [u8; 12]
    ensures { result ≡ spec.units mag }
{
    let mut bytes = [0; 12];
    BigEndian::write_i32_into(&[25_400_000, 473_628_672, i32::from(mag)], &mut bytes);
    bytes
}

fn day_and_time(date: DateParameters) -> [u8; 11]
    ensures { result ≡ spec.day_and_time date }
{
    let month = two_digits(date.month);
    let day = two_digits(date.day);
    let hours = two_digits(date.time / 60);
    let minutes = two_digits(date.time % 60);
    [
        b'.', month[0], month[1], b'.', day[0], day[1], b':', hours[0], hours[1], minutes[0],
        minutes[1],
    ]
}

fn comment(alloc: Global, date: DateParameters) -> Result<Bytes, AllocError>
    ensures bytes { IfOk result (λ text. text ≡ spec.comment date) }
    ensures bound { IfOk result (λ text. length text ≤ 255) }
{
    let mut text = Bytes::from_slice(alloc, b" TeX output ")?;
    text.append(date.year.to_string(alloc)?.as_bytes())?;
    text.append(&day_and_time(date))?;
    Ok(text)
}

/// Appends the preamble of a file with this \mag and comment.
fn append_preamble(file: &mut Bytes, mag: u16, comment: &[u8]) -> Result<(), AllocError>
    requires { length comment.now ≤ 255 }
    ensures bytes { OnOk result
        (file.new ≡ file.old ++ (spec.pre ∷ spec.format_number ∷ spec.units mag ++ length comment.now ∷ comment.now)) }
    ensures size { OnOk result (length file.new ≡ length file.old + (15 + length comment.now)) }
{
    file.append(&[PRE, FORMAT_NUMBER])?;
    file.append(&units(mag))?;
    file.push(comment.len() as u8)?;
    file.append(comment)
}

fn preamble(alloc: Global, first: &PageBody) -> Result<Bytes, AllocError>
    ensures bytes { IfOk result (λ file. file ≡ spec.preamble first.now) }
    ensures bound { IfOk result (λ file. length file ≤ 270) }
{
    let mut file = Bytes::new(alloc);
    let comment = comment(alloc, first.parts().date)?;
    append_preamble(&mut file, first.parts().mag, comment.as_slice())?;
    Ok(file)
}

#[tactic(auto, unfolding(crate::specs::Dvi::four_bytes))]
fn append_page(file: &mut Bytes, page: &PageBody, pointer: i32) -> Result<(), AllocError>
    ensures bytes { OnOk result (file.new ≡ file.old ++ spec.page_bytes page.now pointer) }
    ensures size { OnOk result (length file.new ≡ length file.old + spec.page_size page.now) }
    ensures bound { spec.page_size page.now ≤ 200046 }
    ensures ten { length page.now.counts ≡ 10 }
{
    let mut counts = [0; 40];
    BigEndian::write_i32_into(&page.parts().counts, &mut counts);
    file.push(BOP)?;
    file.append(&counts)?;
    file.append(&four_bytes(pointer))?;
    file.append(page.body())?;
    file.push(EOP)
}

// All pages, behind what is in the file; the place of the last of them, or -1 where there is none.
fn append_pages(file: &mut Bytes, pages: &[PageBody]) -> Result<i32, AllocError>
    requires start { length file.old ≤ 270 }
    requires few { length pages.now ≤ 10000 }
    ensures bytes { OnOk result (file.new ≡ file.old ++ spec.pages_bytes (length file.old) pages.now) }
    ensures last { IfOk result (λ last. last ≡ spec.pointer_of (length file.old) pages.now (length pages.now)) }
    ensures size { OnOk result (length file.new ≡ spec.place_of (length file.old) pages.now (length pages.now)) }
    ensures bound { OnOk result (length file.new ≤ 270 + 200046 * length pages.now) }
    ensures ten { OnOk result (All (λ page. length page.counts ≡ 10) pages.now) }
{
    let mut pointer = -1;
    for page in pages {
        let place = file.len() as i32;
        append_page(file, page, pointer)?;
        pointer = place;
    }
    Ok(pointer)
}

fn greatest_height(pages: &[PageBody]) -> i32
    ensures { result ≡ spec.greatest_height pages.now }
{
    let mut most = 0;
    for page in pages {
        most = most.max(page.parts().height);
    }
    most
}

fn greatest_width(pages: &[PageBody]) -> i32
    ensures { result ≡ spec.greatest_width pages.now }
{
    let mut most = 0;
    for page in pages {
        most = most.max(page.parts().width);
    }
    most
}

fn greatest_nesting(pages: &[PageBody]) -> u16
    ensures { result ≡ spec.greatest_nesting pages.now }
{
    pages
        .iter()
        .fold(0, |most, page| most.max(page.parts().nesting))
}

fn append_sizes(file: &mut Bytes, pages: &[PageBody]) -> Result<(), AllocError>
    requires { length pages.now ≤ 10000 }
    ensures { OnOk result (file.new ≡ file.old ++ spec.sizes_bytes pages.now) }
{
    file.append(&four_bytes(greatest_height(pages)))?;
    file.append(&four_bytes(greatest_width(pages)))?;
    file.append(&two_bytes(greatest_nesting(pages)))?;
    file.append(&two_bytes(pages.len() as u16))
}

/// Appends the fonts that a page defines.
fn append_fonts(
    alloc: Global,
    fonts: &mut Items<FontDefinition>,
    page: &PageBody,
) -> Result<(), AllocError>
    ensures fonts { OnOk result (fonts.new ≡ fonts.old ++ page.now.fonts) }
    ensures names { All IsNamed page.now.fonts }
{
    let mut more = Items::from_slice(alloc, page.fonts())?;
    fonts.append(&mut more)
}

/// The fonts that the pages define, page by page.
fn defined_fonts(alloc: Global, pages: &[PageBody]) -> Result<Items<FontDefinition>, AllocError>
    ensures fonts { IfOk result (λ fonts. fonts ≡ spec.fonts_of pages.now) }
    ensures names { IfOk result (All IsNamed) }
{
    let mut fonts = Items::new(alloc);
    for page in pages {
        append_fonts(alloc, &mut fonts, page)?;
    }
    Ok(fonts)
}

/// Appends the definitions of the fonts that have this number.
fn append_numbered(file: &mut Bytes, fonts: &[FontDefinition], number: u8) -> Result<(), AllocError>
    requires { All IsNamed fonts.now }
    ensures { OnOk result (file.new ≡ file.old ++ flat_map spec.definition_bytes (spec.numbered number fonts.now)) }
{
    for font in fonts {
        if font.number == number {
            append_definition(file, font)?;
        }
    }
    Ok(())
}

/// Appends the definitions of fonts, from the last number to the first.
fn append_definitions(file: &mut Bytes, fonts: &[FontDefinition]) -> Result<(), AllocError>
    requires { All IsNamed fonts.now }
    ensures { OnOk result (file.new ≡ file.old ++ spec.definitions_below 256 fonts.now) }
{
    let mut below: u16 = 256;
    while below > 0 {
        below -= 1;
        append_numbered(file, fonts, below as u8)?;
    }
    Ok(())
}

fn append_post(
    alloc: Global,
    file: &mut Bytes,
    last: i32,
    first: &PageBody,
    pages: &[PageBody],
) -> Result<(), AllocError>
    requires { length pages.now ≤ 10000 }
    ensures { OnOk result (file.new ≡ file.old ++ spec.post_bytes last first.now.mag pages.now) }
{
    file.push(POST)?;
    file.append(&four_bytes(last))?;
    file.append(&units(first.parts().mag))?;
    append_sizes(file, pages)?;
    let fonts = defined_fonts(alloc, pages)?;
    append_definitions(file, fonts.as_slice())
}

fn append_post_post(file: &mut Bytes, place: i32) -> Result<(), AllocError>
    ensures { OnOk result (file.new ≡ file.old ++ spec.post_post_bytes place) }
{
    file.push(POST_POST)?;
    file.append(&four_bytes(place))?;
    file.push(FORMAT_NUMBER)
}

fn fill(file: &mut Bytes) -> Result<(), AllocError>
    ensures { OnOk result (file.new ≡ spec.filled file.old) }
{
    let count = 4 + (4 - file.len() % 4) % 4;
    file.append(&[FILLER; 7][..count])
}

/// The DVI file of these pages, in their order; where there is no page there is no file, and so no byte. It has the
/// first page's \mag and date. Its only error is want of memory.
pub fn assemble(alloc: Global, pages: &[PageBody]) -> Result<Bytes, AllocError>
    requires { length pages.now ≤ 10000 }
    ensures file { IfOk result (λ file. file ≡ spec.dvi pages.now) }
    ensures pointers { IfOk result (λ file. spec.PointsBack file pages.now) }
{
    let Some(first) = pages.first() else {
        return Ok(Bytes::new(alloc));
    };
    let mut file = preamble(alloc, first)?;
    let last = append_pages(&mut file, pages)?;
    let place = file.len() as i32;
    append_post(alloc, &mut file, last, first, pages)?;
    append_post_post(&mut file, place)?;
    fill(&mut file)?;
    Ok(file)
}
