//! The quantities of the table and the lists, lent together.
ghost use Rattle.std.specs.Prelude.{◌≡◌, ◌≤◌, ◌≤ℤ◌, pos, IsTrue};
ghost use Rattle.tx_expand.specs.Values as spec;

use crate::known::Known;
use tx_eqtb::Eqtb;
use tx_nest::{Nest, SpaceFactor, is_bare_page, last_kern, last_penalty, last_skip};
use tx_node::Nodes;
use tx_num::Glue;
use tx_output::{LastItem, Pages};
use tx_prim::{FontNumber, IntegerParameter, ItemKind, PageQuantity};
use tx_seen::{FontName, FontSize, Place, Quantities, Value};
use tx_tfm::Fonts;

impl<'a> Known<'a> {
    /// This table, these lists, what is kept of pages, \badness, the magnification if it is used, these fonts, and whether a word
    /// is open.
    pub fn new(
        table: &'a Eqtb,
        nest: &'a Nest,
        pages: &'a Pages,
        badness: i64,
        magnification: Option<i32>,
        fonts: &'a Fonts,
        has_word: bool,
    ) -> Known<'a>
        ensures { spec.lent result ≡ record { table = table.now; nest = nest.now; pages = pages.now; badness = badness; magnification = magnification; fonts = fonts.now; has_word = has_word } }
    {
        Known {
            table,
            nest,
            pages,
            badness,
            magnification,
            fonts,
            has_word,
        }
    }

    /// \lastpenalty, \lastkern or \lastskip, where no word is open.
    fn last_of_list(&self, kind: ItemKind) -> Value
        ensures { result ≡ spec.last_of_list kind (spec.lent self.now) }
    {
        let list = self.nest.innermost();
        if is_bare_page(list) {
            page_value(kind, self.pages.last)
        } else {
            last_value(kind, &list.nodes)
        }
    }

    /// \lastpenalty, \lastkern or \lastskip, also where a word is open.
    fn last(&self, kind: ItemKind) -> Value
        ensures { result ≡ spec.last_or_none self.now.has_word kind (spec.lent self.now) }
    {
        if self.has_word {
            no_last(kind)
        } else {
            self.last_of_list(kind)
        }
    }

    /// The number of a font, as a document tells it.
    pub fn font_number(&self, font: FontName) -> u8
        ensures { result ≡ spec.font_number (spec.lent self.now) font }
    {
        match font {
            FontName::Current => self.table.font(),
            FontName::Number(number) => number,
        }
    }
}

/// \lastpenalty, \lastkern or \lastskip.
fn last_value(kind: ItemKind, nodes: &Nodes) -> Value
    ensures { result ≡ spec.last_value kind nodes.now }
{
    match kind {
        ItemKind::Penalty => Value::Int(i64::from(last_penalty(nodes))),
        ItemKind::Kern => Value::Dimen(i64::from(last_kern(nodes))),
        ItemKind::Skip => Value::Glue(last_skip(nodes)),
    }
}

/// The same of the page's last node.
fn page_value(kind: ItemKind, last: LastItem) -> Value
    ensures { result ≡ spec.page_value kind last }
{
    match (kind, last) {
        (ItemKind::Penalty, LastItem::Penalty(number)) => Value::Int(i64::from(number)),
        (ItemKind::Kern, LastItem::Kern(size)) => Value::Dimen(i64::from(size)),
        (ItemKind::Skip, LastItem::Skip(glue)) => Value::Glue(glue),
        (ItemKind::Penalty, LastItem::Kern(_) | LastItem::Skip(_) | LastItem::Other) => no_last(
            kind,
        ),
        (ItemKind::Kern, LastItem::Penalty(_) | LastItem::Skip(_) | LastItem::Other) => no_last(
            kind,
        ),
        (ItemKind::Skip, LastItem::Penalty(_) | LastItem::Kern(_) | LastItem::Other) => no_last(
            kind,
        ),
    }
}

/// A quantity of the page: \insertpenalties is an integer, the others are sizes.
fn quantity_value(pages: &Pages, quantity: PageQuantity) -> Value
    ensures { result ≡ spec.quantity_value pages.now quantity }
{
    let value = pages.page.get(quantity);
    match quantity {
        PageQuantity::InsertPenalties => Value::Int(value),
        PageQuantity::Goal | PageQuantity::Total | PageQuantity::Depth => Value::Dimen(value),
        PageQuantity::Stretch | PageQuantity::FilStretch => Value::Dimen(value),
        PageQuantity::FillStretch | PageQuantity::FilllStretch => Value::Dimen(value),
        PageQuantity::Shrink => Value::Dimen(value),
    }
}

/// The same where the last item is a character, or may be a ligature or a kern that a word ends with.
fn no_last(kind: ItemKind) -> Value
    ensures { result ≡ spec.no_last kind }
{
    match kind {
        ItemKind::Penalty => Value::Int(0),
        ItemKind::Kern => Value::Dimen(0),
        ItemKind::Skip => Value::Glue(Glue::zero()),
    }
}

/// The number of the parameter of a font in which a dimension is told.
fn parameter_of(size: FontSize) -> u16
    ensures value { result ≡ spec.parameter_of size }
    ensures some { 1 ≤ result }
{
    match size {
        FontSize::Quad => 6,
        FontSize::XHeight => 5,
    }
}

/// \fontdimen of this number of a font.
fn dimen_value(fonts: &Fonts, font: u8, number: u16) -> Value
    ensures { result ≡ spec.dimen_value fonts.now font number }
{
    if fonts.has_parameter(font, number) {
        Value::Dimen(fonts.parameter(font, number))
    } else {
        Value::OutOfRange
    }
}

/// \hyphenchar or \skewchar of a font.
fn integer_value(fonts: &Fonts, kind: FontNumber, font: u8) -> Value
    ensures { result ≡ spec.integer_value fonts.now kind font }
{
    Value::Int(i64::from(fonts.integer(kind, font)))
}

/// Whether this magnification may be used: 1 to 32768, and the one that was used first (TeX: The Program, section 288).
pub fn may_magnify(first: Option<i32>, magnification: i32) -> bool
    ensures known { result ≡ spec.may_magnify first magnification }
    ensures least { IsTrue result → pos 1 ≤ℤ magnification }
    ensures greatest { IsTrue result → magnification ≤ℤ pos 32768 }
{
    1 <= magnification && magnification <= 32768 && first.is_none_or(|first| first == magnification)
}

/// \mag, if it may be used.
fn magnification_value(first: Option<i32>, magnification: i32) -> Value
    ensures { result ≡ spec.magnification_value first magnification }
{
    if may_magnify(first, magnification) {
        Value::Magnification(magnification as u16)
    } else {
        Value::Absent
    }
}

/// \prevdepth, which lists that aren't vertical don't have.
fn depth_value(depth: Option<i32>) -> Value
    ensures { result ≡ spec.depth_value depth }
{
    match depth {
        Some(depth) => Value::Dimen(i64::from(depth)),
        None => Value::Absent,
    }
}

/// \spacefactor, which lists that aren't horizontal don't have.
fn factor_value(factor: Option<SpaceFactor>) -> Value
    ensures { result ≡ spec.factor_value factor }
{
    let Some(factor) = factor else {
        return Value::Absent;
    };
    Value::Int(i64::from(factor.get()))
}

impl<'a> Quantities for Known<'a> {
    ghost use Rattle.tx_expand.specs.Values.{lent, value_now};

    ghost value_at = { λ known. value_now (lent known) };

    fn quantity(&self, place: &Place) -> Value {
        match place {
            Place::Last(kind) => self.last(*kind),
            Place::Badness => Value::Int(self.badness),
            Place::PrevDepth => depth_value(self.nest.innermost().state.prev_depth()),
            Place::SpaceFactor => factor_value(self.nest.innermost().state.space_factor()),
            Place::PrevGraf => Value::Int(i64::from(self.nest.innermost().prev_graf)),
            Place::FontSize(size) => Value::Dimen(
                self.fonts.parameter(self.table.font(), parameter_of(*size)),
            ),
            Place::FontDimen(font, number) => {
                dimen_value(self.fonts, self.font_number(*font), *number)
            }
            Place::FontInteger(kind, font) => {
                integer_value(self.fonts, *kind, self.font_number(*font))
            }
            Place::Magnification => magnification_value(
                self.magnification,
                self.table.number(&Place::Integer(IntegerParameter::Mag)),
            ),
            Place::Name(_) | Place::Active(_) | Place::Category(_) | Place::Code(_, _) => {
                self.table.quantity(place)
            }
            Place::Count(_) | Place::Dimen(_) | Place::Toks(_) => self.table.quantity(place),
            Place::Integer(_) | Place::Dimension(_) | Place::Tokens(_) | Place::Font => {
                self.table.quantity(place)
            }
            Place::Skip(_) | Place::Muskip(_) | Place::Glue(_) => self.table.quantity(place),
            Place::ParShape | Place::Family(_, _) => self.table.quantity(place),
            Place::Page(quantity) => quantity_value(self.pages, *quantity),
            Place::DeadCycles => Value::Int(i64::from(self.pages.dead_cycles)),
            Place::Box(_) | Place::BoxSize(_, _) | Place::BoxTest(_, _) => {
                self.table.quantity(place)
            }
        }
    }
}
