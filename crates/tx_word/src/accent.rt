//! Accents over characters. How far one is moved is reckoned in 128 bits.
ghost use Rattle.std.specs.Prelude.{◌≡◌, ◌∷◌, ◌+◌, ◌*◌, ◌≤◌, ◌<◌, ◌^◌, ◌+ℤ◌, ◌-ℤ◌, ◌*ℤ◌, ◌==◌, [], pos, neg_ℤ, unsigned_abs, IfOk};
ghost use Rattle.tx_node.specs.declared.plain.Plain.TheVariants as plains;
ghost use Rattle.tx_node.specs.Items.{box_item, plain};
ghost use Rattle.tx_node.specs.Nodes.{item_of};
ghost use Rattle.tx_num.specs.Fractions.{nearest as nearest_to, nearest_signed, signed};
ghost use Rattle.tx_num.specs.Limits.{fits as is_dimension};
ghost use Rattle.tx_word.specs.Accents as spec;

use crate::word::character;
use std::alloc::{AllocError, Global};
use tx_list::Kept;
use tx_node::{
    BoxHead, BoxNode, Character, Direction, KernKind, Node, Nodes, Plain, Setting, same_character,
};
use tx_num::fits;
use tx_tfm::Fonts;

/// An accent that waits for the character below it, with the x-height, in sp, and the slant of its font as they were where it
/// stood.
#[derive(Clone, Copy)]
pub struct Accent {
    pub character: Character,
    pub x_height: i64,
    pub slant: i64,
}

impl Kept for Accent {
    fn share(&self) -> Result<Self, AllocError> {
        Ok(*self)
    }

    fn same(&self, other: &Self) -> bool {
        same_character(self.character, other.character)
            && self.x_height == other.x_height
            && self.slant == other.slant
    }
}

/// A character of the font of a number as an accent.
pub fn accent_of(fonts: &Fonts, font: u8, code: u8) -> Accent
    ensures { result ≡ spec.accent_of fonts.now font code }
{
    Accent {
        character: character(fonts, font, code),
        x_height: fonts.parameter(font, 5),
        slant: fonts.parameter(font, 1),
    }
}

/// Whether a size in sp is a dimension.
fn fits_wide(size: i128) -> bool
    ensures { result ≡ is_dimension size }
{
    size.unsigned_abs() < 1 << 30
}

/// A size that is stored, in sp; None where it is no dimension.
#[tactic(auto, unfolding(crate::specs::Accents::stored))]
fn stored(size: i128) -> Option<i32>
    ensures { result ≡ spec.stored size }
{
    if fits_wide(size) {
        Some(size as i32)
    } else {
        None
    }
}

/// The product of two numbers.
fn product(a: i64, b: i64) -> i128
    ensures value { result ≡ a *ℤ b }
    ensures size { unsigned_abs result ≡ unsigned_abs a * unsigned_abs b }
{
    i128::from(a) * i128::from(b)
}

/// The same, with its bound.
fn leant(height: i64, slant: i64) -> i128
    ensures value { result ≡ height *ℤ slant }
    ensures bound { unsigned_abs result ≤ unsigned_abs height * 2 ^ 63 }
{
    product(height, slant)
}

/// How far a character leans at its height.
fn leaning_base(base: Character, slant: i64) -> i128
    ensures value { result ≡ base.height *ℤ slant }
    ensures bound { unsigned_abs result ≤ 2 ^ 94 }
{
    leant(i64::from(base.height), slant)
}

/// How far an accent leans at the x-height of its font.
fn leaning_accent(accent: &Accent) -> i128
    ensures value { result ≡ accent.now.x_height *ℤ accent.now.slant }
    ensures bound { unsigned_abs result ≤ 2 ^ 126 }
{
    leant(accent.x_height, accent.slant)
}

/// How much wider a character is than an accent.
fn wider(accent: &Accent, base: Character) -> i64
    ensures value { result ≡ base.width -ℤ accent.now.character.width }
    ensures bound { unsigned_abs result ≤ 2 ^ 32 }
{
    i64::from(base.width) - i64::from(accent.character.width)
}

/// The half of so many sp, in 65536ths of 1sp.
fn half_of(wider: i64) -> i128
    requires { unsigned_abs wider ≤ 2 ^ 32 }
    ensures value { result ≡ wider *ℤ pos 32768 }
    ensures bound { unsigned_abs result ≤ 2 ^ 47 }
{
    i128::from(wider) * 32768
}

/// How much further a character leans than an accent.
fn further(over: i128, under: i128) -> i128
    requires over { unsigned_abs over ≤ 2 ^ 94 }
    requires under { unsigned_abs under ≤ 2 ^ 126 }
    ensures value { result ≡ over -ℤ under }
    ensures bound { unsigned_abs result ≤ 2 ^ 126 + 2 ^ 94 }
{
    over - under
}

/// Both together.
fn together(half: i128, further: i128) -> i128
    requires half { unsigned_abs half ≤ 2 ^ 47 }
    requires further { unsigned_abs further ≤ 2 ^ 126 + 2 ^ 94 }
    ensures value { result ≡ half +ℤ further }
    ensures bound { unsigned_abs result ≤ 3 * 2 ^ 125 }
{
    half + further
}

/// How far the accent is moved, in 65536ths of 1sp.
#[tactic(auto, unfolding(crate::specs::Accents::leaning))]
fn leaning(accent: &Accent, base: Character, slant: i64) -> i128
    ensures value { result ≡ spec.leaning accent.now base slant }
    ensures bound { unsigned_abs result ≤ 3 * 2 ^ 125 }
{
    let half = half_of(wider(accent, base));
    let over = leaning_base(base, slant);
    let under = leaning_accent(accent);
    together(half, further(over, under))
}

/// So many 65536ths to the nearest whole number, halves upwards.
fn nearest(size: u128) -> u128
    requires { size ≤ 3 * 2 ^ 125 }
    ensures value { result ≡ nearest_to size 65536 }
    ensures bound { result ≤ size + 1 }
{
    (2 * size + 65536) / (2 * 65536)
}

/// The number of this sign and magnitude.
fn with_sign(negative: bool, size: u128) -> i128
    requires { size < 2 ^ 127 }
    ensures value { result ≡ signed negative size }
    ensures bound { unsigned_abs result ≡ size }
{
    if negative {
        -(size as i128)
    } else {
        size as i128
    }
}

/// So many 65536ths to the nearest whole number, halves away from zero.
fn rounded(leaning: i128) -> i128
    requires { unsigned_abs leaning ≤ 3 * 2 ^ 125 }
    ensures value { result ≡ nearest_signed leaning (pos 65536) }
    ensures bound { unsigned_abs result ≤ 3 * 2 ^ 125 + 1 }
{
    with_sign(leaning < 0, nearest(leaning.unsigned_abs()))
}

/// How far the accent is moved, in sp.
#[tactic(auto, unfolding(crate::specs::Accents::offset))]
fn offset(accent: &Accent, base: Character, slant: i64) -> i128
    ensures value { result ≡ spec.offset accent.now base slant }
    ensures bound { unsigned_abs result ≤ 3 * 2 ^ 125 + 1 }
{
    rounded(leaning(accent, base, slant))
}

/// The width of an accent, to the left, in sp.
fn leftwards(accent: &Accent) -> i128
    ensures value { result ≡ neg_ℤ accent.now.character.width }
    ensures bound { unsigned_abs result ≤ 2 ^ 31 }
{
    -i128::from(accent.character.width)
}

/// A number less another.
fn less(number: i128, other: i128) -> i128
    requires number { unsigned_abs number ≤ 2 ^ 31 }
    requires other { unsigned_abs other ≤ 3 * 2 ^ 125 + 1 }
    ensures { result ≡ number -ℤ other }
{
    number - other
}

/// How far the list goes on behind it, in sp.
#[tactic(auto, unfolding(crate::specs::Accents::back))]
fn back(accent: &Accent, base: Character, slant: i64) -> i128
    ensures { result ≡ spec.back accent.now base slant }
{
    less(leftwards(accent), offset(accent, base, slant))
}

/// A kern beside an accent.
fn kern(size: i32) -> Node
    ensures { item_of result ≡ spec.kern size }
{
    Node::Plain(Plain::Kern(KernKind::Accent, size))
}

/// Whether a size is none.
fn is_nothing(size: i128) -> bool
    ensures { result ≡ (unsigned_abs size == 0) }
{
    size.unsigned_abs() == 0
}

/// The head of the box of an accent.
fn box_head(accent: Character) -> BoxHead
    ensures { result ≡ (spec.accent_box accent).head }
{
    BoxHead {
        direction: Direction::Horizontal,
        width: accent.width,
        height: accent.height.max(0),
        depth: accent.depth.max(0),
        setting: Setting::Natural,
    }
}

/// A list of one character. Its only error is want of memory.
fn single(alloc: Global, character: Character) -> Result<Nodes, AllocError>
    ensures { IfOk result (λ list. list ≡ plain (plains.Character character) ∷ []) }
{
    let mut list = Nodes::new(alloc);
    list.push(Node::Plain(Plain::Character(character)))?;
    Ok(list)
}

/// The accent in a box. Its only error is want of memory.
fn accent_box(alloc: Global, accent: Character) -> Result<BoxNode, AllocError>
    ensures { IfOk result (λ made. made ≡ spec.accent_box accent) }
{
    let list = single(alloc, accent)?;
    BoxNode::new(alloc, box_head(accent), list)
}

/// The accent in a box, so many sp further down than by itself. Its only error is want of memory.
fn boxed(alloc: Global, accent: Character, shift: i32) -> Result<Node, AllocError>
    ensures { IfOk result (λ node. item_of node ≡ box_item shift (spec.accent_box accent)) }
{
    let made = accent_box(alloc, accent)?;
    Node::from_box(alloc, shift, made)
}

/// The accent, so many sp further down than by itself. Its only error is want of memory.
#[tactic(auto, unfolding(crate::specs::Accents::lowered))]
fn lowered(alloc: Global, accent: Character, shift: i32) -> Result<Node, AllocError>
    ensures { IfOk result (λ node. item_of node ≡ spec.lowered accent shift) }
{
    if is_nothing(i128::from(shift)) {
        return Ok(Node::Plain(Plain::Character(accent)));
    }
    boxed(alloc, accent, shift)
}

/// How far down the accent stands over a character, in sp.
#[tactic(auto, unfolding(crate::specs::Accents::shift_over))]
fn shift_over(accent: &Accent, base: Character) -> i128
    ensures { result ≡ spec.shift_over accent.now base }
{
    i128::from(accent.x_height) - i128::from(base.height)
}

/// Whether the accent is put into a box where a character of the font of a number stands below it.
pub fn is_boxed(fonts: &Fonts, accent: &Accent, font: u8, code: u8) -> bool
    ensures { result ≡ spec.is_boxed_at fonts.now accent.now font code }
{
    !is_nothing(shift_over(accent, character(fonts, font, code)))
}

/// Whether the sizes of a character are dimensions.
fn has_box(accent: Character) -> bool
    ensures { result ≡ spec.has_box accent }
{
    fits(i64::from(accent.width)) && fits(i64::from(accent.height)) && fits(i64::from(accent.depth))
}

/// How far down the accent is moved, in sp; None where that or a size of its box is no dimension.
#[tactic(auto, unfolding(crate::specs::Accents::lowering))]
fn lowering(accent: Character, shift: i128) -> Option<i32>
    ensures { result ≡ spec.lowering accent shift }
{
    if is_nothing(shift) {
        return Some(0);
    }
    if has_box(accent) { stored(shift) } else { None }
}

/// A list of the accent between its kerns and of the character below it. Its only error is want of memory.
fn listed(
    alloc: Global,
    before: i32,
    accent: Node,
    behind: i32,
    base: Character,
) -> Result<Nodes, AllocError>
    ensures { IfOk result (λ list. list ≡ spec.kern before ∷ item_of accent ∷ spec.kern behind ∷ plain (plains.Character base) ∷ []) }
{
    let mut list = Nodes::new(alloc);
    list.reserve(4)?;
    list.push(kern(before))?;
    list.push(accent)?;
    list.push(kern(behind))?;
    list.push(Node::Plain(Plain::Character(base)))?;
    Ok(list)
}

/// The same of an accent that is moved down by so many sp. Its only error is want of memory.
fn standing(
    alloc: Global,
    before: i32,
    accent: Character,
    shift: i32,
    behind: i32,
    base: Character,
) -> Result<Nodes, AllocError>
    ensures { IfOk result (λ list. list ≡ spec.kern before ∷ spec.lowered accent shift ∷ spec.kern behind ∷ plain (plains.Character base) ∷ []) }
{
    let over = lowered(alloc, accent, shift)?;
    listed(alloc, before, over, behind, base)
}

/// The same, where these sizes are dimensions; None where one isn't. Its only error is want of memory.
fn arranged(
    alloc: Global,
    accent: Character,
    base: Character,
    before: Option<i32>,
    behind: Option<i32>,
    shift: Option<i32>,
) -> Result<Option<Nodes>, AllocError>
    ensures { IfOk result (λ made. made ≡ spec.arranged accent base before behind shift) }
{
    let Some(before) = before else {
        return Ok(None);
    };
    let Some(behind) = behind else {
        return Ok(None);
    };
    let Some(shift) = shift else {
        return Ok(None);
    };
    let list = standing(alloc, before, accent, shift, behind, base)?;
    Ok(Some(list))
}

/// An accent and the character below it, in a font of this slant. None where a size would be no dimension. Its only error is want
/// of memory.
fn accented_by(
    alloc: Global,
    accent: &Accent,
    base: Character,
    slant: i64,
) -> Result<Option<Nodes>, AllocError>
    ensures { IfOk result (λ made. made ≡ spec.accented accent.now base slant) }
{
    let before = stored(offset(accent, base, slant));
    let behind = stored(back(accent, base, slant));
    let shift = lowering(accent.character, shift_over(accent, base));
    arranged(alloc, accent.character, base, before, behind, shift)
}

/// An accent and the character of the font of a number below it. None where a size would be no dimension. Its only error is want
/// of memory.
pub fn accented(
    alloc: Global,
    fonts: &Fonts,
    accent: &Accent,
    font: u8,
    code: u8,
) -> Result<Option<Nodes>, AllocError>
    ensures { IfOk result (λ made. made ≡ spec.accented_at fonts.now accent.now font code) }
{
    let slant = fonts.parameter(font, 1);
    accented_by(alloc, accent, character(fonts, font, code), slant)
}
