//! Large operators and their limits (TeX: The Program, sections 749 to 751).
ghost use Rattle.std.specs.Prelude.{◌≡◌, ◌≢◌, ◌≤◌, ◌^◌, ◌∷◌, ◌++◌, pos, Some, unsigned_abs, IfOk, IfErr, Ok, Err};
ghost use Rattle.tx_node.specs.Items.{box_item};
ghost use Rattle.tx_math.specs.Operators as spec;
ghost use Rattle.tx_math.specs.Formula as formula;
ghost use Rattle.tx_math.specs.Setters.{IsSetter, math_in};
ghost use Rattle.tx_math.specs.declared.error.MathError.TheVariants.{OutOfMemory};

use crate::boxes::{boxed, framed, kern, shifted, stored, triple, with_width};
use crate::error::MathError;
use crate::operators::{Limit, Limited, OperatorBox};
use crate::parameters::half;
use crate::setter::Setter;
use crate::sums::{greater, minus, negated, plus};
use std::alloc::{AllocError, Global};
use tx_bytes::Bytes;
use tx_delim::character_of;
use tx_mlist::Limits;
use tx_node::{BoxNode, Character, Nodes};
use tx_tfm::Fonts;

/// Whether the limits of an operator stand above and below it in a style.
pub fn has_limits(limits: Limits, style: u8) -> bool
    ensures { result ≡ spec.has_limits limits style }
{
    match limits {
        Limits::Displayed => style < 2,
        Limits::Always => true,
        Limits::Never => false,
    }
}

/// The larger character that a font has for one, or the same one where it has none.
fn larger(fonts: &Fonts, character: Character) -> Character
    ensures { result ≡ spec.larger fonts.now character }
{
    let Some(named) = fonts.get(character.font) else {
        return character;
    };
    match named.font.successor(character.code) {
        Some(code) if named.font.is_there(code) => character_of(fonts, character.font, code),
        _ => character,
    }
}

/// The width of an operator and its limits, in sp.
#[tactic(auto, unfolding(crate::specs::Operators::widest))]
pub fn widest(upper: &BoxNode, operator: &BoxNode, lower: &BoxNode) -> i32
    ensures { result ≡ spec.widest upper.now operator.now lower.now }
{
    operator.width().max(upper.width()).max(lower.width())
}

/// A box that is narrower by the correction, in sp, where a subscript stands behind it.
fn narrowed(subscripted: bool, correction: i64, inner: BoxNode) -> Result<BoxNode, MathError>
    requires { unsigned_abs correction ≤ 2 ^ 31 }
    ensures { result ≡ spec.narrowed subscripted correction inner }
{
    if subscripted {
        let width = minus(i64::from(inner.width()), correction);
        with_width(inner, width)
    } else {
        Ok(inner)
    }
}

/// How high an operator is with the limit above it, in sp.
#[tactic(auto, unfolding(crate::specs::Operators::limited_height))]
fn limited_height(operator: &BoxNode, upper: &Limit) -> i64
    requires { unsigned_abs upper.now.reach ≤ 2 ^ 34 }
    ensures { result ≡ spec.limited_height operator.now upper.now }
{
    plus(i64::from(operator.height()), upper.reach)
}

/// How deep it is with the limit below it, in sp.
#[tactic(auto, unfolding(crate::specs::Operators::limited_depth))]
fn limited_depth(operator: &BoxNode, lower: &Limit) -> i64
    requires { unsigned_abs lower.now.reach ≤ 2 ^ 34 }
    ensures { result ≡ spec.limited_depth operator.now lower.now }
{
    plus(i64::from(operator.depth()), lower.reach)
}

/// An operator between what its limits are. Its only error is want of memory.
#[tactic(auto, using(crate::proofs::Between::between))]
fn limited_list(
    alloc: Global,
    operator: BoxNode,
    upper: Nodes,
    lower: Nodes,
) -> Result<Nodes, AllocError>
    ensures { IfOk result (λ list. list ≡ upper ++ box_item (pos 0) operator ∷ lower) }
{
    let mut list = upper;
    let mut behind = lower;
    list.push(boxed(alloc, operator)?)?;
    list.append(&mut behind)?;
    Ok(list)
}

/// An operator between its limits, in a box of this width, in sp.
fn limited_box(
    alloc: Global,
    width: i32,
    operator: BoxNode,
    upper: Limit,
    lower: Limit,
) -> Result<BoxNode, MathError>
    requires upper { unsigned_abs upper.reach ≤ 2 ^ 34 }
    requires lower { unsigned_abs lower.reach ≤ 2 ^ 34 }
    ensures made { IfOk result (λ made. spec.limited_box width operator upper lower ≡ Ok made) }
    ensures error { IfErr result (λ e. e ≢ OutOfMemory → spec.limited_box width operator upper lower ≡ Err e) }
{
    let height = limited_height(&operator, &upper);
    let depth = limited_depth(&operator, &lower);
    let list = limited_list(alloc, operator, upper.nodes, lower.nodes)?;
    framed(alloc, i64::from(width), height, depth, list)
}

/// How far a limit of this height and depth reaches with the spaces about it, in sp.
#[tactic(auto, unfolding(crate::specs::Operators::reach_of))]
fn reach_of(beyond: i32, height: i32, depth: i32, space: i32) -> i64
    ensures value { result ≡ spec.reach_of beyond height depth space }
    ensures near { unsigned_abs result ≤ 2 ^ 34 }
{
    let size = plus(plus(i64::from(beyond), i64::from(height)), i64::from(depth));
    plus(size, i64::from(space))
}

/// How far the limit above an operator of this correction is moved to the right, in sp.
#[tactic(auto, unfolding(crate::specs::Operators::moved_right))]
fn moved_right(correction: i64) -> i64
    requires { unsigned_abs correction ≤ 2 ^ 31 }
    ensures value { result ≡ spec.moved_right correction }
    ensures near { unsigned_abs result ≤ 2 ^ 31 }
{
    half(correction)
}

/// The same of the limit below it, which goes to the left.
#[tactic(auto, unfolding(crate::specs::Operators::moved_left))]
fn moved_left(correction: i64) -> i64
    requires { unsigned_abs correction ≤ 2 ^ 31 }
    ensures { result ≡ spec.moved_left correction }
{
    negated(moved_right(correction))
}

/// No limit; takes no memory.
fn no_limit(alloc: Global) -> Limit
    ensures { result ≡ spec.no_limit }
{
    Limit {
        nodes: Nodes::new(alloc),
        reach: 0,
    }
}

impl Setter<'_> {
    /// The character of an operator, if its font has it; a larger one in display style.
    fn in_display(&self, style: u8, found: Option<Character>) -> Option<Character>
        ensures { result ≡ spec.in_display (math_in self.now) style found }
    {
        match found {
            Some(character) if style < 2 => Some(larger(self.fonts, character)),
            found => found,
        }
    }

    /// The italic correction of an operator, in sp.
    fn operator_correction(&self, found: Option<Character>) -> i64
        ensures value { result ≡ spec.operator_correction (math_in self.now) found }
        ensures bound { unsigned_abs result ≤ 2 ^ 31 }
    {
        match found {
            Some(character) => self.fonts.italic(character.font, character.code),
            None => 0,
        }
    }

    /// How far down a box is shifted that is centred about the axis, in sp.
    pub fn about_axis(&self, style: u8, inner: &BoxNode) -> i64
        ensures { result ≡ spec.about_axis (math_in self.now) style inner.now }
    {
        let excess = minus(i64::from(inner.height()), i64::from(inner.depth()));
        minus(half(excess), self.symbol_in(style, 22))
    }

    /// The box of an operator that is this character, if its font has it; it is to be narrower by its correction, or not.
    #[tactic(auto, unfolding(crate::specs::Formula::operator_by))]
    pub fn operator_by(
        &self,
        alloc: Global,
        style: u8,
        narrow: bool,
        found: Option<Character>,
    ) -> Result<OperatorBox, MathError>
        requires { IsSetter self.now }
        ensures made { IfOk result (λ made. formula.operator_by (math_in self.now) style narrow (spec.in_display (math_in self.now) style found) ≡ Ok made) }
        ensures near { IfOk result (λ made. unsigned_abs made.correction ≤ 2 ^ 31) }
        ensures error { IfErr result (λ e. e ≢ OutOfMemory → formula.operator_by (math_in self.now) style narrow (spec.in_display (math_in self.now) style found) ≡ Err e) }
    {
        let found = self.in_display(style, found);
        let correction = self.operator_correction(found);
        let nucleus = self.letter_nucleus(alloc, false, false, found)?;
        let inner = self.cleaned_list(alloc, nucleus.nodes)?;
        let inner = narrowed(narrow, correction, inner)?;
        let shift = stored(self.about_axis(style, &inner))?;
        Ok(OperatorBox {
            shift,
            inner,
            correction,
        })
    }

    /// An operator and its limits, centred to a width, in sp, and what is told of them.
    #[tactic(auto, unfolding(crate::specs::Operators::evened))]
    pub fn evened(
        &self,
        alloc: Global,
        width: i32,
        upper: BoxNode,
        operator: BoxNode,
        lower: BoxNode,
        report: &mut Bytes,
    ) -> Result<Limited, MathError>
        requires { IsSetter self.now }
        ensures made { IfOk result (λ boxes. spec.evened (math_in self.now) width upper operator lower report.old ≡ Ok (boxes, report.new)) }
        ensures error { IfErr result (λ e. e ≢ OutOfMemory → spec.evened (math_in self.now) width upper operator lower report.old ≡ Err e) }
    {
        let upper = self.reboxed(alloc, width, upper, report)?;
        let operator = self.reboxed(alloc, width, operator, report)?;
        let lower = self.reboxed(alloc, width, lower, report)?;
        Ok(Limited {
            upper,
            operator,
            lower,
        })
    }

    /// The space between an operator and what stands above it, in sp.
    #[tactic(auto, unfolding(crate::specs::Operators::above_operator))]
    fn above_operator(&self, style: u8, upper: &BoxNode) -> i64
        ensures { result ≡ spec.above_operator (math_in self.now) style upper.now }
    {
        let least = minus(self.extension_in(style, 11), i64::from(upper.depth()));
        greater(least, self.extension_in(style, 9))
    }

    /// The space between an operator and what stands below it, in sp.
    #[tactic(auto, unfolding(crate::specs::Operators::below_operator))]
    fn below_operator(&self, style: u8, lower: &BoxNode) -> i64
        ensures { result ≡ spec.below_operator (math_in self.now) style lower.now }
    {
        let least = minus(self.extension_in(style, 12), i64::from(lower.height()));
        greater(least, self.extension_in(style, 10))
    }

    /// The limit above an operator of this correction, in sp, with the spaces about it, if it is there.
    #[tactic(auto, unfolding(crate::specs::Operators::upper_limit))]
    fn upper_limit(
        &self,
        alloc: Global,
        style: u8,
        correction: i64,
        is_there: bool,
        upper: BoxNode,
    ) -> Result<Limit, MathError>
        requires { unsigned_abs correction ≤ 2 ^ 31 }
        ensures made { IfOk result (λ limit. spec.upper_limit (math_in self.now) style correction is_there upper ≡ Ok limit) }
        ensures near { IfOk result (λ limit. unsigned_abs limit.reach ≤ 2 ^ 34) }
        ensures error { IfErr result (λ e. e ≢ OutOfMemory → spec.upper_limit (math_in self.now) style correction is_there upper ≡ Err e) }
    {
        if !is_there {
            return Ok(no_limit(alloc));
        }
        let beyond = stored(self.extension_in(style, 13))?;
        self.upper_from(alloc, style, correction, beyond, upper)
    }

    /// The same with this space beyond it, in sp.
    #[tactic(auto, unfolding(crate::specs::Operators::upper_from))]
    fn upper_from(
        &self,
        alloc: Global,
        style: u8,
        correction: i64,
        beyond: i32,
        upper: BoxNode,
    ) -> Result<Limit, MathError>
        requires { unsigned_abs correction ≤ 2 ^ 31 }
        ensures made { IfOk result (λ limit. spec.upper_from (math_in self.now) style correction beyond upper ≡ Ok limit) }
        ensures near { IfOk result (λ limit. unsigned_abs limit.reach ≤ 2 ^ 34) }
        ensures error { IfErr result (λ e. e ≢ OutOfMemory → spec.upper_from (math_in self.now) style correction beyond upper ≡ Err e) }
    {
        let (height, depth) = (upper.height(), upper.depth());
        let space = self.above_operator(style, &upper);
        let upper = shifted(alloc, moved_right(correction), upper)?;
        let space = stored(space)?;
        Ok(Limit {
            nodes: triple(alloc, kern(beyond), upper, kern(space))?,
            reach: reach_of(beyond, height, depth, space),
        })
    }

    /// The limit below an operator of this correction, in sp, with the spaces about it, if it is there.
    #[tactic(auto, unfolding(crate::specs::Operators::lower_limit))]
    fn lower_limit(
        &self,
        alloc: Global,
        style: u8,
        correction: i64,
        is_there: bool,
        lower: BoxNode,
    ) -> Result<Limit, MathError>
        requires { unsigned_abs correction ≤ 2 ^ 31 }
        ensures made { IfOk result (λ limit. spec.lower_limit (math_in self.now) style correction is_there lower ≡ Ok limit) }
        ensures near { IfOk result (λ limit. unsigned_abs limit.reach ≤ 2 ^ 34) }
        ensures error { IfErr result (λ e. e ≢ OutOfMemory → spec.lower_limit (math_in self.now) style correction is_there lower ≡ Err e) }
    {
        if !is_there {
            return Ok(no_limit(alloc));
        }
        let space = stored(self.below_operator(style, &lower))?;
        self.lower_from(alloc, style, correction, space, lower)
    }

    /// The same with this space above it, in sp.
    #[tactic(auto, unfolding(crate::specs::Operators::lower_from))]
    fn lower_from(
        &self,
        alloc: Global,
        style: u8,
        correction: i64,
        space: i32,
        lower: BoxNode,
    ) -> Result<Limit, MathError>
        requires { unsigned_abs correction ≤ 2 ^ 31 }
        ensures made { IfOk result (λ limit. spec.lower_from (math_in self.now) style correction space lower ≡ Ok limit) }
        ensures near { IfOk result (λ limit. unsigned_abs limit.reach ≤ 2 ^ 34) }
        ensures error { IfErr result (λ e. e ≢ OutOfMemory → spec.lower_from (math_in self.now) style correction space lower ≡ Err e) }
    {
        let (height, depth) = (lower.height(), lower.depth());
        let lower = shifted(alloc, moved_left(correction), lower)?;
        let beyond = stored(self.extension_in(style, 13))?;
        Ok(Limit {
            nodes: triple(alloc, kern(space), lower, kern(beyond))?,
            reach: reach_of(beyond, height, depth, space),
        })
    }

    /// An operator between those of its limits that are there, in a box of this width, in sp.
    #[tactic(auto, unfolding(crate::specs::Operators::limits_of))]
    pub fn limits_of(
        &self,
        alloc: Global,
        style: u8,
        correction: i64,
        has_upper: bool,
        has_lower: bool,
        width: i32,
        boxes: Limited,
    ) -> Result<BoxNode, MathError>
        requires { unsigned_abs correction ≤ 2 ^ 31 }
        ensures made { IfOk result (λ made. spec.limits_of (math_in self.now) style correction has_upper has_lower width boxes ≡ Ok made) }
        ensures error { IfErr result (λ e. e ≢ OutOfMemory → spec.limits_of (math_in self.now) style correction has_upper has_lower width boxes ≡ Err e) }
    {
        let Limited {
            upper,
            operator,
            lower,
        } = boxes;
        let above = self.upper_limit(alloc, style, correction, has_upper, upper)?;
        let below = self.lower_limit(alloc, style, correction, has_lower, lower)?;
        limited_box(alloc, width, operator, above, below)
    }
}
