//! Words with places at which a hyphen may be put in.
ghost use Rattle.std.specs.Prelude.{◌≡◌, ◌∷◌, ◌++◌, ◌==◌, ◌&&◌, [], false, true, length, map, slice_range, IfOk, OnOk, Some};
ghost use Rattle.std.specs.List.{All};
ghost use Rattle.tx_node.specs.Nodes.{item_of};
ghost use Rattle.tx_tfm.specs.Fonts.{font_at, has_character};
ghost use Rattle.tx_word.specs.Composed.{composed_in};
ghost use Rattle.tx_word.specs.Dividing.{AreThere, IsNoted, parted_in};
ghost use Rattle.tx_word.specs.Divisions as spec;
ghost use Rattle.tx_word.specs.Words.{word_item};

use crate::dividing::{Dividing, Letters};
use crate::division::{Division, Divisions};
use crate::word::{append_items, character, composed, composed_with_seams, node_of};
use std::alloc::{AllocError, Global};
use tx_bytes::Bytes;
use tx_ligkern::{Items, Seamed};
use tx_node::{Node, Nodes, Plain};
use tx_tfm::Fonts;

/// The hyphen character, None where it isn't in 0 to 255.
pub(crate) fn hyphen_code(hyphen: i64) -> Option<u8>
    ensures { result ≡ spec.hyphen_code hyphen }
{
    if 0 <= hyphen && hyphen < 256 {
        Some(hyphen as u8)
    } else {
        None
    }
}

/// The text before a break: the hyphen character, nothing where the font lacks it. Its only error is want of memory.
pub(crate) fn text_before(
    alloc: Global,
    fonts: &Fonts,
    font: u8,
    hyphen: u8,
) -> Result<Nodes, AllocError>
    ensures { IfOk result (λ list. list ≡ map (word_item fonts.now font) (spec.before_break fonts.now font hyphen)) }
{
    let mut list = Nodes::new(alloc);
    if fonts.has_character(font, hyphen) {
        list.push(Node::Plain(Plain::Character(character(fonts, font, hyphen))))?;
    }
    Ok(list)
}

/// Puts the hyphen character behind others, if the font has it. Its only error is want of memory.
fn push_hyphen(codes: &mut Bytes, fonts: &Fonts, font: u8, hyphen: u8) -> Result<(), AllocError>
    ensures { OnOk result (codes.new ≡ codes.old ++ spec.hyphen_codes fonts.now font hyphen) }
{
    if fonts.has_character(font, hyphen) {
        codes.push(hyphen)?;
    }
    Ok(())
}

/// What characters become, as a text. Its only error is want of memory.
fn text_of(
    alloc: Global,
    fonts: &Fonts,
    font: u8,
    chars: &[u8],
    left: bool,
    right: bool,
) -> Result<Nodes, AllocError>
    requires { All (λ c. has_character fonts.now font c ≡ true) chars.now }
    ensures { IfOk result (λ list. list ≡ map (word_item fonts.now font) (composed_in (font_at fonts.now font) chars.now left right)) }
{
    let items = composed(alloc, fonts, font, chars, left, right)?;
    let mut list = Nodes::new(alloc);
    append_items(alloc, &mut list, fonts, font, None, items)?;
    Ok(list)
}

/// The characters from one place to another, as far as there are some.
fn part(chars: &[u8], from: usize, to: usize) -> &[u8]
    ensures { result.now ≡ slice_range chars.now from to }
{
    let end = to.min(chars.len());
    let begin = from.min(end);
    &chars[begin..end]
}

/// Whether a boundary counts for a part of a word that ends at a place: where the word ends there too.
fn counts(boundary: bool, place: usize, end: usize) -> bool
    ensures { result ≡ (boundary && place == end) }
{
    boundary && place == end
}

impl Letters<'_> {
    /// The text before a break at a division inside a ligature. Its only error is want of memory, here and in all that follows.
    fn part_before(&self, alloc: Global, d: &Division) -> Result<Nodes, AllocError>
        requires { AreThere self.now }
        ensures { IfOk result (λ list. list ≡ map (word_item self.now.fonts.now self.now.font) (composed_in (font_at self.now.fonts.now self.now.font) (slice_range self.now.chars.now d.now.from d.now.place ++ spec.hyphen_codes self.now.fonts.now self.now.font self.now.hyphen) (self.now.left && d.now.from == 0) false)) }
    {
        let (fonts, font) = (self.fonts, self.font);
        let mut codes = Bytes::from_slice(alloc, part(self.chars, d.from, d.place))?;
        push_hyphen(&mut codes, fonts, font, self.hyphen)?;
        let left = counts(self.left, d.from, 0);
        text_of(alloc, fonts, font, codes.as_slice(), left, false)
    }

    /// The text before a break at a division.
    fn before(&self, alloc: Global, d: &Division) -> Result<Nodes, AllocError>
        requires { AreThere self.now }
        ensures { IfOk result (λ list. list ≡ map (word_item self.now.fonts.now self.now.font) (spec.text_before self.now.fonts.now self.now.font self.now.chars.now self.now.left self.now.hyphen d.now)) }
    {
        if d.from == d.place {
            text_before(alloc, self.fonts, self.font, self.hyphen)
        } else {
            self.part_before(alloc, d)
        }
    }

    /// The text behind a break at a division inside a ligature.
    fn part_behind(&self, alloc: Global, d: &Division) -> Result<Nodes, AllocError>
        requires { AreThere self.now }
        ensures { IfOk result (λ list. list ≡ map (word_item self.now.fonts.now self.now.font) (composed_in (font_at self.now.fonts.now self.now.font) (slice_range self.now.chars.now d.now.place d.now.to) false (self.now.right && d.now.to == length self.now.chars.now))) }
    {
        let right = counts(self.right, d.to, self.chars.len());
        let chars = part(self.chars, d.place, d.to);
        text_of(alloc, self.fonts, self.font, chars, false, right)
    }

    /// The text behind a break at a division.
    fn behind(&self, alloc: Global, d: &Division) -> Result<Nodes, AllocError>
        requires { AreThere self.now }
        ensures { IfOk result (λ list. list ≡ map (word_item self.now.fonts.now self.now.font) (spec.text_behind self.now.fonts.now self.now.font self.now.chars.now self.now.right d.now)) }
    {
        if d.place == d.to {
            Ok(Nodes::new(alloc))
        } else {
            self.part_behind(alloc, d)
        }
    }

    /// The discretionary of a division.
    fn discretionary(&self, alloc: Global, d: &Division) -> Result<Node, AllocError>
        requires { AreThere self.now }
        ensures { IfOk result (λ node. item_of node ≡ spec.part_item self.now.fonts.now self.now.font (parted_in self.now d.now)) }
    {
        let before = self.before(alloc, d)?;
        let behind = self.behind(alloc, d)?;
        Node::from_discretionary(alloc, before, behind, d.replaced, true)
    }

    /// Puts the discretionaries before an item at the end of a list.
    fn append_parted(
        &self,
        alloc: Global,
        list: &mut Nodes,
        divisions: &[Division],
        item: usize,
    ) -> Result<(), AllocError>
        requires { AreThere self.now }
        ensures { OnOk result (list.new ≡ list.old ++ map (spec.part_item self.now.fonts.now self.now.font) (spec.parted_at (parted_in self.now) divisions.now item)) }
    {
        for division in divisions {
            if division.item == item {
                list.push(self.discretionary(alloc, division)?)?;
            }
        }
        Ok(())
    }

    /// Puts the items of the word, with discretionaries at its divisions, at the end of a list.
    fn append_parts(
        &self,
        alloc: Global,
        list: &mut Nodes,
        divisions: &[Division],
        items: Items,
    ) -> Result<(), AllocError>
        requires { AreThere self.now }
        ensures { OnOk result (list.new ≡ list.old ++ map (spec.part_item self.now.fonts.now self.now.font) (spec.divided (parted_in self.now) divisions.now 0 items)) }
    {
        let mut place: usize = 0;
        for item in items.into_vec() {
            self.append_parted(alloc, list, divisions, place)?;
            list.push(node_of(alloc, self.fonts, self.font, item)?)?;
            place += 1;
        }
        self.append_parted(alloc, list, divisions, place)
    }
}

/// The divisions of a word that becomes this, at places. Its only error is want of memory.
fn divisions_of(
    alloc: Global,
    word: &Letters,
    places: &[usize],
    made: &Seamed,
) -> Result<Divisions, AllocError>
    requires there { AreThere word.now }
    requires between { All (spec.IsBetween word.now.chars.now) places.now }
    requires items { made.now.items ≡ composed_in (font_at word.now.fonts.now word.now.font) word.now.chars.now word.now.left word.now.right }
    requires noted { All (IsNoted word.now.fonts.now word.now.font word.now.chars.now word.now.left word.now.right made.now.items) made.now.seams }
    ensures { IfOk result (λ divisions. divisions ≡ spec.divisions_of (spec.seam_of word.now.fonts.now word.now.font word.now.chars.now word.now.left word.now.right) (spec.last_seam (length word.now.chars.now) (length made.now.items)) places.now) }
{
    let dividing = Dividing {
        fonts: word.fonts,
        font: word.font,
        chars: word.chars,
        left: word.left,
        right: word.right,
        items: made.items.as_slice(),
        seams: made.seams.as_slice(),
        places,
    };
    dividing.divisions(alloc)
}

/// Puts a word that becomes this, with discretionaries at its divisions, at the end of a list. Its only error is want of memory.
fn append_with_hyphens(
    alloc: Global,
    list: &mut Nodes,
    word: &Letters,
    places: &[usize],
    made: Seamed,
) -> Result<(), AllocError>
    requires there { AreThere word.now }
    requires between { All (spec.IsBetween word.now.chars.now) places.now }
    requires items { made.items ≡ composed_in (font_at word.now.fonts.now word.now.font) word.now.chars.now word.now.left word.now.right }
    requires noted { All (IsNoted word.now.fonts.now word.now.font word.now.chars.now word.now.left word.now.right made.items) made.seams }
    ensures { OnOk result (list.new ≡ list.old ++ spec.divided_by word.now.fonts.now word.now.font word.now.chars.now word.now.left word.now.right places.now (Some word.now.hyphen) made.items) }
{
    let divisions = divisions_of(alloc, word, places, &made)?;
    word.append_parts(alloc, list, divisions.as_slice(), made.into_items())
}

/// Puts what a word with places becomes at the end of a list: its items as its font composes them, and discretionaries at its
/// places: at each that is a seam, and at the first of those that lie between the same two seams, inside a ligature; none where the
/// hyphen character isn't in 0 to 255. Its only error is want of memory.
#[tactic(auto, using(crate::proofs::Made::without_breaks))]
pub fn append_divided(
    alloc: Global,
    list: &mut Nodes,
    fonts: &Fonts,
    font: u8,
    chars: &[u8],
    left: bool,
    right: bool,
    places: &[usize],
    hyphen: i64,
) -> Result<(), AllocError>
    requires { spec.IsPlaced fonts.now font chars.now places.now }
    ensures made { OnOk result (spec.WithDivided fonts.now font chars.now left right places.now hyphen list.old list.new) }
    ensures value { OnOk result (list.new ≡ list.old ++ spec.divided_list fonts.now font chars.now left right places.now hyphen) }
{
    let made = composed_with_seams(alloc, fonts, font, chars, left, right)?;
    match hyphen_code(hyphen) {
        None => append_items(alloc, list, fonts, font, None, made.into_items()),
        Some(hyphen) => {
            let word = Letters {
                fonts,
                font,
                chars,
                left,
                right,
                hyphen,
            };
            append_with_hyphens(alloc, list, &word, places, made)
        }
    }
}
