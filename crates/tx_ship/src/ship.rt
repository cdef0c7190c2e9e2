//! A box as a page.
ghost use Rattle.std.specs.Prelude.{◌≡◌, ◌≢◌, ◌≤◌, ◌^◌, ◌+ℤ◌, pos, true, unsigned_abs, [], length, is_some, IfSome, IfOk, IfErr, OnOk, Ok, Err, Some};
ghost use Rattle.std.specs.Int.{int_max};
ghost use Rattle.std.specs.List.{All};
ghost use Rattle.tx_dvi.specs.Meaning.{meaning};
ghost use Rattle.tx_ship.specs.declared.error.ShipError.TheVariants.{OutOfMemory};
ghost use Rattle.tx_dvi.specs.Page.{IsNamed};
ghost use Rattle.tx_node.specs.Items.{items_of};
ghost use Rattle.tx_ship.specs.Characters.{AreOfFonts, widths_of};
ghost use Rattle.tx_ship.specs.Commands.{page_pen, written_of};
ghost use Rattle.tx_ship.specs.Standing.{page_frame};
ghost use Rattle.tx_ship.specs.Within.{page_lies, IsNear, IsOutside};
ghost use Rattle.tx_ship.specs.Placing.{placed};
ghost use Rattle.tx_ship.specs.Registers.{IsAsPlain};
ghost use Rattle.tx_ship.specs.Pages as spec;

use crate::error::ShipError;
use crate::frames::is_entered;
use crate::level::level_inside;
use crate::list::{box_lies, put_inside};
use crate::output::{Output, PageFonts};
use crate::params::ShipParams;
use crate::places::{Cursor, Point};
use crate::registers::registered;
use std::alloc::{AllocError, Global};
use tx_bytes::Bytes;
use tx_dvi::{DateParameters, FontDefinition, PageBody, PageParts};
use tx_list::Items;
use tx_node::BoxNode;
use tx_tfm::Fonts;

/// The greatest size of a page, in sp.
const GREATEST: i128 = 1073741823;

/// The most bytes that the body of a page may have.
const MAX_BODY: usize = 200000;

/// A size of a page, at least 0, None exactly where it is too large.
fn page_size(size: i128) -> Option<i32>
    ensures fits { is_some result ≡ spec.fits size }
    ensures value { IfSome result (λ kept. kept ≡ int_max (pos 0) size) }
{
    if size <= GREATEST {
        Some(size.max(0) as i32)
    } else {
        None
    }
}

/// How far down the baseline of the box of a page lies.
fn page_base(node: &BoxNode, params: &ShipParams) -> i128
    ensures value { result ≡ params.now.voffset +ℤ node.now.head.height }
    ensures near { unsigned_abs result ≤ 2 ^ 65 }
{
    i128::from(params.voffset) + i128::from(node.height())
}

fn page_height(node: &BoxNode, params: &ShipParams) -> Option<i32>
    ensures fits { is_some result ≡ spec.fits (spec.page_height node.now params.now) }
    ensures value { IfSome result (λ kept. kept ≡ int_max (pos 0) (spec.page_height node.now params.now)) }
{
    page_size(page_base(node, params) + i128::from(node.depth()))
}

fn page_width(node: &BoxNode, params: &ShipParams) -> Option<i32>
    ensures fits { is_some result ≡ spec.fits (spec.page_width node.now params.now) }
    ensures value { IfSome result (λ kept. kept ≡ int_max (pos 0) (spec.page_width node.now params.now)) }
{
    page_size(i128::from(params.hoffset) + i128::from(node.width()))
}

/// The sizes of a page, each at least 0: its height, with its depth, and its width.
#[derive(Clone, Copy)]
struct PageSizes {
    height: i32,
    width: i32,
}

/// The sizes of a page, None exactly where one is too large.
fn page_sizes(node: &BoxNode, params: &ShipParams) -> Option<PageSizes>
    ensures fit { is_some result ≡ spec.sizes_fit node.now params.now }
    ensures height { IfSome result (λ sizes. sizes.height ≡ int_max (pos 0) (spec.page_height node.now params.now)) }
    ensures width { IfSome result (λ sizes. sizes.width ≡ int_max (pos 0) (spec.page_width node.now params.now)) }
{
    if i128::from(node.height()) > GREATEST || i128::from(node.depth()) > GREATEST {
        return None;
    }
    let height = page_height(node, params)?;
    let width = page_width(node, params)?;
    Some(PageSizes { height, width })
}

/// Where the reference point of the box of a page lies.
fn page_point(node: &BoxNode, params: &ShipParams) -> Point
    ensures value { result ≡ (page_frame node.now params.now.hoffset params.now.voffset).at }
    ensures near { IsNear result }
{
    Point {
        h: i128::from(params.hoffset),
        v: page_base(node, params),
    }
}

/// What a page begins with. Its only error is want of memory.
fn page_output(alloc: Global, params: &ShipParams) -> Result<Output, AllocError>
    ensures body { IfOk result (λ output. output.body.items ≡ []) }
    ensures fonts { IfOk result (λ output. output.fonts ≡ (page_pen params.now.defined).fonts) }
{
    Ok(Output {
        body: Vec::new(alloc),
        fonts: PageFonts::new(alloc, &params.defined)?,
    })
}

/// The commands of a page, and the fonts behind them. `OutsidePage` comes exactly where something that the box holds lies
/// outside, or the box itself.
fn page_commands(
    alloc: Global,
    node: &BoxNode,
    fonts: &Fonts,
    params: &ShipParams,
) -> Result<Output, ShipError>
    ensures lies { OnOk result (page_lies node.now params.now.hoffset params.now.voffset ≡ true) }
    ensures outside { IfErr result (λ e. IsOutside e (page_lies node.now params.now.hoffset params.now.voffset)) }
    ensures commands { IfOk result (λ output. output.body.items ≡ (written_of fonts.now params.now.defined node.now params.now.hoffset params.now.voffset).0) }
    ensures fonts { IfOk result (λ output. output.fonts ≡ (written_of fonts.now params.now.defined node.now params.now.hoffset params.now.voffset).1.fonts) }
{
    let mut output = page_output(alloc, params)?;
    if !is_entered(node) {
        return Ok(output);
    }
    let at = page_point(node, params);
    if !box_lies(node, at) {
        return Err(ShipError::OutsidePage);
    }
    let start = Cursor { right: 0, down: 0 };
    put_inside(&mut output, fonts, node, at, start)?;
    Ok(output)
}

/// The parameters of TeX that are a date.
fn date_of(params: &ShipParams) -> DateParameters
    ensures { result ≡ spec.date_of params.now }
{
    DateParameters {
        year: params.year,
        month: params.month,
        day: params.day,
        time: params.time,
    }
}

/// \mag, which is in its range.
fn mag_of(params: &ShipParams) -> u16
    requires { spec.IsMag params.now.mag }
    ensures value { result ≡ unsigned_abs params.now.mag }
    ensures least { 1 ≤ result }
    ensures most { result ≤ 32768 }
{
    let mag = params.mag;
    mag as u16
}

/// The page with these sizes, commands and fonts.
fn page_with(
    node: &BoxNode,
    params: &ShipParams,
    sizes: PageSizes,
    commands: Bytes,
    fonts: Items<FontDefinition>,
) -> PageParts
    requires mag { spec.IsMag params.now.mag }
    requires height { sizes.height ≡ int_max (pos 0) (spec.page_height node.now params.now) }
    requires width { sizes.width ≡ int_max (pos 0) (spec.page_width node.now params.now) }
    requires short { length commands ≤ 200000 }
    requires named { All IsNamed fonts }
    ensures { result ≡ spec.page_made node.now params.now commands fonts }
{
    let most = node.nesting();
    let nesting = level_inside(node);
    let within = nesting < most;
    prove!(within);
    PageParts {
        body: commands,
        fonts,
        counts: params.counts,
        height: sizes.height,
        width: sizes.width,
        nesting,
        mag: mag_of(params),
        date: date_of(params),
    }
}

/// The body of the page on which a box is shipped. `SizeTooLarge` comes exactly where its height or depth, its height plus
/// its depth plus \voffset or its width plus \hoffset is past 2^30-1; else `OutsidePage` exactly where a character, a rule, a
/// special or a box with a list lies, in whole or part, past 2^30-1 to a side; else `BodyTooLong` exactly where the body has
/// more than 200,000 bytes. The body is no longer than the plain commands of the box, and means what they mean. Where each
/// character is in its font, which gives it its sizes, these are the characters, rules and specials of the box, at their places,
/// and the definitions of its fonts that no earlier page has.
pub fn body(
    alloc: Global,
    node: &BoxNode,
    fonts: &Fonts,
    params: &ShipParams,
) -> Result<PageBody, ShipError>
    requires { spec.IsMag params.now.mag }
    ensures page { IfOk result (λ page. spec.page_of fonts.now node.now params.now ≡ Ok page) }
    ensures error { IfErr result (λ e. e ≢ OutOfMemory → spec.page_of fonts.now node.now params.now ≡ Err e) }
    ensures plain { IfOk result (λ page. IsAsPlain params.now.defined (written_of fonts.now params.now.defined node.now params.now.hoffset params.now.voffset).0 page.body) }
    ensures meaning { AreOfFonts fonts.now (items_of node.now.list) → IfOk result (λ page. meaning (widths_of fonts.now) params.now.defined page.body
        ≡ Some (record { placed = placed node.now params.now.hoffset params.now.voffset; fonts = page.fonts })) }
{
    let Some(sizes) = page_sizes(node, params) else {
        return Err(ShipError::SizeTooLarge);
    };
    fonts.are_fonts();
    let Output { body, fonts: known } = page_commands(alloc, node, fonts, params)?;
    let commands = registered(alloc, body.as_slice())?;
    if commands.len() > MAX_BODY {
        return Err(ShipError::BodyTooLong);
    }
    let parts = page_with(node, params, sizes, commands, known.into_defined());
    Ok(PageBody::new(alloc, parts)?)
}
