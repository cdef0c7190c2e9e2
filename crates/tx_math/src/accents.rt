//! \mathaccent (TeX: The Program, sections 738 to 742).
ghost use Rattle.std.specs.Prelude.{◌≡◌, ◌≢◌, ◌≤◌, ◌^◌, ◌∷◌, ◌-ℤ◌, [], pos, unsigned_abs, IfOk, IfErr, Ok, Err};
ghost use Rattle.tx_node.specs.Items.{box_item};
ghost use Rattle.tx_node.specs.Nodes.{item_of};
ghost use Rattle.tx_math.specs.Accents as spec;
ghost use Rattle.tx_math.specs.Boxes as boxes;
ghost use Rattle.tx_math.specs.Setters.{IsSetter, math_in};
ghost use Rattle.tx_math.specs.declared.error.MathError.TheVariants.{OutOfMemory};

use crate::boxes::{boxed, framed, kern, shifted, single, stored, triple, with_width};
use crate::error::MathError;
use crate::pairs::{command_in, kern_in};
use crate::parameters::half;
use crate::setter::Setter;
use crate::signs::AccentPlace;
use crate::sums::{minus, negated, plus};
use std::alloc::{AllocError, Global};
use tx_delim::{character_box, full_width, widest_fitting};
use tx_node::{BoxNode, Character, Node, Nodes};
use tx_prim::FontNumber;
use tx_tfm::Word;

/// The code that a number is, if it is one.
fn code_of(number: i64) -> Option<u8>
    ensures { result ≡ spec.code_of number }
{
    if 0 <= number && number < 256 {
        Some(number as u8)
    } else {
        None
    }
}

/// The lesser of two heights, in sp.
fn lesser(height: i64, other: i64) -> i64
    requires height { unsigned_abs height ≤ 2 ^ 31 }
    requires other { unsigned_abs other ≤ 2 ^ 31 }
    ensures value { result ≡ spec.lesser height other }
    ensures bound { unsigned_abs result ≤ 2 ^ 31 }
{
    if height < other { height } else { other }
}

/// Where an accent stands when what it stands on has grown.
#[tactic(auto, unfolding(crate::specs::Accents::place_on))]
pub fn place_on(place: AccentPlace, inner: &BoxNode, grown: &BoxNode) -> AccentPlace
    requires { unsigned_abs place.down ≤ 2 ^ 31 }
    ensures value { result ≡ spec.place_on place inner.now grown.now }
    ensures near { unsigned_abs result.down ≤ 2 ^ 34 }
{
    let more = minus(i64::from(grown.height()), i64::from(inner.height()));
    AccentPlace {
        font: place.font,
        code: place.code,
        right: place.right,
        down: plus(place.down, more),
    }
}

/// A node above a box, with a kern of so many sp between them. Its only error is want of memory.
fn above_box(alloc: Global, upper: Node, space: i32, inner: BoxNode) -> Result<Nodes, AllocError>
    ensures { IfOk result (λ list. list ≡ item_of upper ∷ boxes.kern space ∷ box_item (pos 0) inner ∷ []) }
{
    let inner = boxed(alloc, inner)?;
    triple(alloc, upper, kern(space), inner)
}

/// The list of a box below a kern, in sp. Its only error is want of memory.
fn topped(alloc: Global, space: i32, inner: BoxNode) -> Result<Nodes, AllocError>
    ensures { IfOk result (λ list. list ≡ boxes.kern space ∷ inner.list) }
{
    let mut list = single(alloc, kern(space))?;
    let mut below = inner.into_nodes()?;
    list.append(&mut below)?;
    Ok(list)
}

/// The same in a vertical box of this width and height, in sp.
fn framed_below(
    alloc: Global,
    width: i64,
    height: i64,
    space: i32,
    inner: BoxNode,
) -> Result<BoxNode, MathError>
    ensures made { IfOk result (λ made. boxes.framed width height inner.head.depth (boxes.kern space ∷ inner.list) ≡ Ok made) }
    ensures error { IfErr result (λ e. e ≢ OutOfMemory → boxes.framed width height inner.head.depth (boxes.kern space ∷ inner.list) ≡ Err e) }
{
    let depth = i64::from(inner.depth());
    let list = topped(alloc, space, inner)?;
    framed(alloc, width, height, depth, list)
}

/// How much a box lacks of a height, in sp. `SizeOutOfRange` exactly where that is no dimension.
fn lacking(height: i64, inner: &BoxNode) -> Result<i32, MathError>
    requires { unsigned_abs height ≤ 2 ^ 31 }
    ensures { result ≡ boxes.stored (height -ℤ inner.now.head.height) }
{
    stored(minus(height, i64::from(inner.height())))
}

/// A vertical box that a kern fills up to this height, with this width, in sp.
fn filled_up(alloc: Global, width: i64, height: i64, inner: BoxNode) -> Result<BoxNode, MathError>
    requires { unsigned_abs height ≤ 2 ^ 31 }
    ensures made { IfOk result (λ made. spec.filled_up width height inner ≡ Ok made) }
    ensures error { IfErr result (λ e. e ≢ OutOfMemory → spec.filled_up width height inner ≡ Err e) }
{
    let space = lacking(height, &inner)?;
    framed_below(alloc, width, height, space, inner)
}

/// A vertical box at least so high, with this width, in sp.
#[tactic(auto, unfolding(crate::specs::Accents::as_high))]
fn as_high(alloc: Global, width: i64, height: i64, inner: BoxNode) -> Result<BoxNode, MathError>
    requires { unsigned_abs height ≤ 2 ^ 31 }
    ensures made { IfOk result (λ made. spec.as_high width height inner ≡ Ok made) }
    ensures error { IfErr result (λ e. e ≢ OutOfMemory → spec.as_high width height inner ≡ Err e) }
{
    if i64::from(inner.height()) < height {
        filled_up(alloc, width, height, inner)
    } else {
        with_width(inner, width)
    }
}

impl Setter<'_> {
    /// The kern of a command of the font of a number, in sp, if it is one of a kern.
    fn command_kern(&self, font: u8, command: Option<Word>) -> i64
        ensures value { result ≡ spec.command_kern (math_in self.now) font command }
        ensures bound { unsigned_abs result ≤ 2 ^ 31 }
    {
        match command {
            Some(command) => {
                if command.c >= 128 {
                    i64::from(kern_in(self.fonts, font, command))
                } else {
                    0
                }
            }
            None => 0,
        }
    }

    /// The kern of a character with another one of its font, in sp.
    fn skew_by(&self, character: Character, code: Option<u8>) -> i64
        ensures value { result ≡ spec.skew_by (math_in self.now) character code }
        ensures bound { unsigned_abs result ≤ 2 ^ 31 }
    {
        match code {
            Some(code) => {
                let command = command_in(self.fonts, character.font, character.code, code);
                self.command_kern(character.font, command)
            }
            None => 0,
        }
    }

    /// The kern of a character with its font's \skewchar, in sp.
    pub fn skew_of(&self, character: Character) -> i64
        ensures value { result ≡ spec.skew_of (math_in self.now) character }
        ensures bound { unsigned_abs result ≤ 2 ^ 31 }
    {
        let number = self.fonts.integer(FontNumber::Skew, character.font);
        self.skew_by(character, code_of(i64::from(number)))
    }

    /// How far to the right an accent is moved that is centred on what it stands on, in sp.
    #[tactic(auto, unfolding(crate::specs::Accents::moved_right))]
    fn moved_right(&self, font: u8, code: u8, skew: i64, inner: &BoxNode) -> i64
        requires { unsigned_abs skew ≤ 2 ^ 31 }
        ensures { result ≡ spec.moved_right (math_in self.now) font code skew inner.now }
    {
        let wide = full_width(self.fonts, font, code);
        plus(skew, half(minus(i64::from(inner.width()), wide)))
    }

    /// How far it is lowered onto that, in sp.
    fn lowered_by(&self, font: u8, inner: &BoxNode) -> i64
        ensures value { result ≡ spec.lowered_by (math_in self.now) font inner.now }
        ensures bound { unsigned_abs result ≤ 2 ^ 31 }
    {
        let height = i64::from(inner.height());
        lesser(height, self.fonts.parameter(font, 5))
    }

    /// Where an accent stands on a box, by the kern of its character, in sp.
    #[tactic(auto, unfolding(crate::specs::Accents::accent_place))]
    pub fn accent_place(&self, character: Character, skew: i64, inner: &BoxNode) -> AccentPlace
        requires { unsigned_abs skew ≤ 2 ^ 31 }
        ensures value { result ≡ spec.accent_place (math_in self.now) character skew inner.now }
        ensures near { unsigned_abs result.down ≤ 2 ^ 31 }
    {
        let width = i64::from(inner.width());
        let code = widest_fitting(self.fonts, width, character.font, character.code);
        AccentPlace {
            font: character.font,
            code,
            right: self.moved_right(character.font, code, skew, inner),
            down: self.lowered_by(character.font, inner),
        }
    }

    /// The accent's box, which counts as having no width.
    #[tactic(auto, unfolding(crate::specs::Accents::accent_item))]
    fn accent_item(&self, alloc: Global, place: AccentPlace) -> Result<Node, MathError>
        ensures made { IfOk result (λ node. spec.accent_item (math_in self.now) place ≡ Ok (item_of node)) }
        ensures error { IfErr result (λ e. e ≢ OutOfMemory → spec.accent_item (math_in self.now) place ≡ Err e) }
    {
        let inner = character_box(alloc, self.fonts, place.font, place.code)?;
        let inner = with_width(inner, 0)?;
        shifted(alloc, place.right, inner)
    }

    /// A node above a box, with a kern of so many sp between them, in a box of natural size.
    fn packed_above(
        &self,
        alloc: Global,
        upper: Node,
        space: i32,
        inner: BoxNode,
    ) -> Result<BoxNode, MathError>
        requires { IsSetter self.now }
        ensures made { IfOk result (λ made. boxes.vbox (math_in self.now) (item_of upper ∷ boxes.kern space ∷ box_item (pos 0) inner ∷ []) ≡ Ok made) }
        ensures error { IfErr result (λ e. e ≢ OutOfMemory → boxes.vbox (math_in self.now) (item_of upper ∷ boxes.kern space ∷ box_item (pos 0) inner ∷ []) ≡ Err e) }
    {
        let list = above_box(alloc, upper, space, inner)?;
        self.vbox(alloc, list)
    }

    /// An accent above a box, with a kern of so many sp between them.
    #[tactic(auto, unfolding(crate::specs::Accents::accent_above))]
    fn accent_above(
        &self,
        alloc: Global,
        place: AccentPlace,
        space: i32,
        inner: BoxNode,
    ) -> Result<BoxNode, MathError>
        requires { IsSetter self.now }
        ensures made { IfOk result (λ made. spec.accent_above (math_in self.now) place space inner ≡ Ok made) }
        ensures error { IfErr result (λ e. e ≢ OutOfMemory → spec.accent_above (math_in self.now) place space inner ≡ Err e) }
    {
        let accent = self.accent_item(alloc, place)?;
        self.packed_above(alloc, accent, space, inner)
    }

    /// An accent on a box.
    #[tactic(auto, unfolding(crate::specs::Accents::accent_stack))]
    fn accent_stack(
        &self,
        alloc: Global,
        place: AccentPlace,
        inner: BoxNode,
    ) -> Result<BoxNode, MathError>
        requires setter { IsSetter self.now }
        requires near { unsigned_abs place.down ≤ 2 ^ 34 }
        ensures made { IfOk result (λ made. spec.accent_stack (math_in self.now) place inner ≡ Ok made) }
        ensures error { IfErr result (λ e. e ≢ OutOfMemory → spec.accent_stack (math_in self.now) place inner ≡ Err e) }
    {
        let space = stored(negated(place.down))?;
        self.accent_above(alloc, place, space, inner)
    }

    /// The same, as wide as the box, and at least as high.
    #[tactic(auto, unfolding(crate::specs::Accents::accent_box))]
    pub fn accent_box(
        &self,
        alloc: Global,
        place: AccentPlace,
        inner: BoxNode,
    ) -> Result<BoxNode, MathError>
        requires setter { IsSetter self.now }
        requires near { unsigned_abs place.down ≤ 2 ^ 34 }
        ensures made { IfOk result (λ made. spec.accent_box (math_in self.now) place inner ≡ Ok made) }
        ensures error { IfErr result (λ e. e ≢ OutOfMemory → spec.accent_box (math_in self.now) place inner ≡ Err e) }
    {
        let width = i64::from(inner.width());
        let height = i64::from(inner.height());
        let made = self.accent_stack(alloc, place, inner)?;
        as_high(alloc, width, height, made)
    }
}
