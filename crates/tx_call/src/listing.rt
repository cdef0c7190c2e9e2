//! The lines that are said of a DVI file.
ghost use Rattle.std.specs.Prelude.{◌≡◌, ◌++◌, codes, OnOk, IfOk};
ghost use Rattle.std.specs.Fmt.{signed_decimal};
ghost use Rattle.tx_call.specs.Listing.{counts_text, page_line, placed_line, placed_lines, page_lines, pages_lines, dvi_refusal_line};

use crate::parts::{Part, append_signed, joined};
use std::alloc::{AllocError, Global};
use tx_bytes::Bytes;
use tx_dvi::Placed;
use tx_dvitype::{DviRule, ReadPage};
use tx_list::Items;

/// A number behind a space.
fn append_count(alloc: Global, text: &mut Bytes, count: i32) -> Result<(), AllocError>
    ensures { OnOk result (text.new ≡ text.old ++ codes " " ++ signed_decimal count) }
{
    text.append(b" ")?;
    append_signed(alloc, text, i64::from(count))
}

/// Numbers, each behind a space.
fn append_counts(alloc: Global, text: &mut Bytes, counts: &[i32]) -> Result<(), AllocError>
    ensures { OnOk result (text.new ≡ text.old ++ counts_text counts.now) }
{
    for count in counts {
        append_count(alloc, text, *count)?;
    }
    Ok(())
}

/// The line of a page, `page I: C0 C1 C2 C3 C4 C5 C6 C7 C8 C9` and LF.
#[tactic(auto, unfolding(crate::specs::Listing::page_line))]
fn page_line(alloc: Global, number: u64, counts: &[i32]) -> Result<Bytes, AllocError>
    ensures { IfOk result (λ line. line ≡ page_line number counts.now) }
{
    let mut numbers = Bytes::new(alloc);
    append_counts(alloc, &mut numbers, counts)?;
    joined(
        alloc,
        &[
            Part::Text(b"page "),
            Part::Number(number),
            Part::Text(b":"),
            Part::Text(numbers.as_slice()),
            Part::Text(b"\n"),
        ],
    )
}

/// The line of what is met on a page, `char C font F at H V`, `rule A B at H V` or `special N bytes at H V` and LF.
#[tactic(auto, unfolding(crate::specs::Listing::placed_line))]
fn placed_line(alloc: Global, placed: &Placed) -> Result<Bytes, AllocError>
    ensures { IfOk result (λ line. line ≡ placed_line placed.now) }
{
    match placed {
        Placed::Lettered(character) => joined(
            alloc,
            &[
                Part::Text(b"char "),
                Part::Number(u64::from(character.code)),
                Part::Text(b" font "),
                Part::Number(u64::from(character.font)),
                Part::Text(b" at "),
                Part::Signed(character.h),
                Part::Text(b" "),
                Part::Signed(character.v),
                Part::Text(b"\n"),
            ],
        ),
        Placed::Ruled(rule) => joined(
            alloc,
            &[
                Part::Text(b"rule "),
                Part::Signed(rule.height),
                Part::Text(b" "),
                Part::Signed(rule.width),
                Part::Text(b" at "),
                Part::Signed(rule.h),
                Part::Text(b" "),
                Part::Signed(rule.v),
                Part::Text(b"\n"),
            ],
        ),
        Placed::Noted(special) => joined(
            alloc,
            &[
                Part::Text(b"special "),
                Part::Number(special.text.len() as u64),
                Part::Text(b" bytes at "),
                Part::Signed(special.h),
                Part::Text(b" "),
                Part::Signed(special.v),
                Part::Text(b"\n"),
            ],
        ),
    }
}

/// The lines of what is met on a page.
fn append_placed(
    alloc: Global,
    lines: &mut Items<Bytes>,
    placed: &[Placed],
) -> Result<(), AllocError>
    ensures { OnOk result (lines.new ≡ lines.old ++ placed_lines placed.now) }
{
    for thing in placed {
        lines.push(placed_line(alloc, thing)?)?;
    }
    Ok(())
}

/// The lines of the page of this number.
fn append_page(
    alloc: Global,
    lines: &mut Items<Bytes>,
    number: u64,
    page: &ReadPage,
) -> Result<(), AllocError>
    ensures { OnOk result (lines.new ≡ lines.old ++ page_lines number page.now) }
{
    lines.push(page_line(alloc, number, &page.counts)?)?;
    append_placed(alloc, lines, page.placed.as_slice())
}

/// The lines of pages, page by page.
fn append_pages(
    alloc: Global,
    lines: &mut Items<Bytes>,
    pages: &[ReadPage],
) -> Result<(), AllocError>
    ensures { OnOk result (lines.new ≡ lines.old ++ pages_lines 1 pages.now) }
{
    for (at, page) in pages.iter().enumerate() {
        append_page(alloc, lines, at as u64 + 1, page)?;
    }
    Ok(())
}

/// The lines of a DVI file.
pub fn listing_lines(alloc: Global, pages: &[ReadPage]) -> Result<Items<Bytes>, AllocError>
    ensures { IfOk result (λ lines. lines ≡ pages_lines 1 pages.now) }
{
    let mut lines = Items::new(alloc);
    append_pages(alloc, &mut lines, pages)?;
    Ok(lines)
}

/// The line of a DVI file that is refused, `dvi refused at PLACE, rule R` and LF.
#[tactic(auto, unfolding(crate::specs::Listing::dvi_refusal_line))]
pub fn dvi_refusal_line(alloc: Global, place: u64, rule: DviRule) -> Result<Bytes, AllocError>
    ensures { IfOk result (λ line. line ≡ dvi_refusal_line place rule) }
{
    joined(
        alloc,
        &[
            Part::Text(b"dvi refused at "),
            Part::Number(place),
            Part::Text(b", rule "),
            Part::Number(u64::from(rule.number())),
            Part::Text(b"\n"),
        ],
    )
}
