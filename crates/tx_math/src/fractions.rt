//! Fractions (TeX: The Program, sections 743 to 748).
ghost use Rattle.std.specs.Prelude.{◌≡◌, ◌≢◌, ◌≤◌, ◌+◌, ◌^◌, ◌∷◌, [], pos, unsigned_abs, IfOk, IfErr, Ok, Err};
ghost use Rattle.tx_node.specs.Items.{box_item};
ghost use Rattle.tx_node.specs.Nodes.{item_of};
ghost use Rattle.tx_math.specs.Boxes as boxes;
ghost use Rattle.tx_math.specs.Fractions as spec;
ghost use Rattle.tx_math.specs.Setters.{AreNear, IsNear, IsSetter, math_in};
ghost use Rattle.tx_math.specs.declared.error.MathError.TheVariants.{OutOfMemory};

use crate::boxes::{boxed, framed, kern, line, stored, triple};
use crate::error::MathError;
use crate::parameters::half;
use crate::scripts::gap;
use crate::setter::Setter;
use crate::shifts::Shifts;
use crate::sums::{greater, minus, plus, times};
use std::alloc::{AllocError, Global};
use tx_bytes::Bytes;
use tx_mlist::{Delimiter, FractionHead};
use tx_node::{BoxNode, Node, Nodes};

/// Both moved by so many sp, if that is something.
fn moved_by(by: i64, shifts: Shifts) -> Shifts
    requires by { unsigned_abs by ≤ 2 ^ 38 }
    requires shifts { (unsigned_abs shifts.up ≤ 2 ^ 34) × (unsigned_abs shifts.down ≤ 2 ^ 34) }
    ensures value { result ≡ spec.moved_by by shifts }
    ensures near { AreNear result }
{
    if 0 < by {
        Shifts {
            up: plus(shifts.up, by),
            down: plus(shifts.down, by),
        }
    } else {
        shifts
    }
}

/// How far a line of this thickness is from what stands above and below it at least, in sp.
fn clearance(style: u8, thickness: i64) -> i64
    requires { unsigned_abs thickness ≤ 2 ^ 31 }
    ensures value { result ≡ spec.clearance style thickness }
    ensures bound { unsigned_abs result ≤ 2 ^ 33 }
{
    if style < 2 {
        times(3, thickness)
    } else {
        thickness
    }
}

/// A size that grows by what is lacking, in sp.
fn grown(size: i64, lacking: i64) -> i64
    requires size { unsigned_abs size ≤ 2 ^ 34 }
    requires lacking { unsigned_abs lacking ≤ 2 ^ 37 }
    ensures value { result ≡ spec.grown size lacking }
    ensures near { IsNear result }
{
    plus(size, greater(0, lacking))
}

/// How high a fraction is, in sp.
#[tactic(auto, unfolding(crate::specs::Fractions::fraction_height))]
fn fraction_height(shifts: Shifts, upper: &BoxNode) -> i64
    requires { AreNear shifts }
    ensures { result ≡ spec.fraction_height shifts upper.now }
{
    plus(shifts.up, i64::from(upper.height()))
}

/// How deep it is, in sp.
#[tactic(auto, unfolding(crate::specs::Fractions::fraction_depth))]
fn fraction_depth(shifts: Shifts, lower: &BoxNode) -> i64
    requires { AreNear shifts }
    ensures { result ≡ spec.fraction_depth shifts lower.now }
{
    plus(i64::from(lower.depth()), shifts.down)
}

/// What stands in the box of a fraction without a line.
fn lineless_list(
    alloc: Global,
    shifts: Shifts,
    upper: BoxNode,
    lower: BoxNode,
) -> Result<Nodes, MathError>
    requires { AreNear shifts }
    ensures made { IfOk result (λ list. spec.lineless_list shifts upper lower ≡ Ok list) }
    ensures error { IfErr result (λ e. e ≢ OutOfMemory → spec.lineless_list shifts upper lower ≡ Err e) }
{
    let space = stored(gap(shifts, &upper, &lower))?;
    let upper = boxed(alloc, upper)?;
    let lower = boxed(alloc, lower)?;
    Ok(triple(alloc, upper, kern(space), lower)?)
}

/// A box between two nodes. Its only error is want of memory.
fn enclosed(alloc: Global, left: Node, inner: BoxNode, right: Node) -> Result<Nodes, AllocError>
    ensures { IfOk result (λ list. list ≡ item_of left ∷ box_item (pos 0) inner ∷ item_of right ∷ []) }
{
    let inner = boxed(alloc, inner)?;
    triple(alloc, left, inner, right)
}

impl Setter<'_> {
    /// How thick the line of a fraction is, in sp.
    pub fn thickness_of(&self, style: u8, told: Option<i32>) -> i64
        ensures value { result ≡ spec.thickness_of (math_in self.now) style told }
        ensures bound { unsigned_abs result ≤ 2 ^ 31 }
    {
        match told {
            Some(thickness) => i64::from(thickness),
            None => self.extension_in(style, 8),
        }
    }

    /// The numerator and the denominator, the narrower of which is centred, and what is told of that.
    #[tactic(auto, unfolding(crate::specs::Fractions::even_boxes))]
    pub fn even_boxes(
        &self,
        alloc: Global,
        upper: BoxNode,
        lower: BoxNode,
        report: &mut Bytes,
    ) -> Result<(BoxNode, BoxNode), MathError>
        requires { IsSetter self.now }
        ensures made { IfOk result (λ boxes. spec.even_boxes (math_in self.now) upper lower report.old ≡ Ok (boxes, report.new)) }
        ensures error { IfErr result (λ e. e ≢ OutOfMemory → spec.even_boxes (math_in self.now) upper lower report.old ≡ Err e) }
    {
        if upper.width() < lower.width() {
            let wide = self.reboxed(alloc, lower.width(), upper, report)?;
            Ok((wide, lower))
        } else {
            let wide = self.reboxed(alloc, upper.width(), lower, report)?;
            Ok((upper, wide))
        }
    }

    /// How far the numerator is raised at first, in sp.
    fn first_raise(&self, style: u8, thickness: i64) -> i64
        ensures value { result ≡ spec.first_raise (math_in self.now) style thickness }
        ensures bound { unsigned_abs result ≤ 2 ^ 31 }
    {
        if style < 2 {
            self.symbol_in(style, 8)
        } else if thickness == 0 {
            self.symbol_in(style, 10)
        } else {
            self.symbol_in(style, 9)
        }
    }

    /// How far the denominator is lowered at first, in sp.
    fn first_lowering(&self, style: u8) -> i64
        ensures value { result ≡ spec.first_lowering (math_in self.now) style }
        ensures bound { unsigned_abs result ≤ 2 ^ 31 }
    {
        if style < 2 {
            self.symbol_in(style, 11)
        } else {
            self.symbol_in(style, 12)
        }
    }

    /// How far both are apart without a line at least, in sp.
    fn apart(&self, style: u8) -> i64
        ensures value { result ≡ spec.apart (math_in self.now) style }
        ensures bound { unsigned_abs result ≤ 2 ^ 34 }
    {
        if style < 2 {
            times(7, self.extension_in(style, 8))
        } else {
            times(3, self.extension_in(style, 8))
        }
    }

    /// The space above the line, in sp.
    #[tactic(auto, unfolding(crate::specs::Fractions::space_above))]
    fn space_above(&self, style: u8, thickness: i64, upper: &BoxNode, up: i64) -> i64
        requires thickness { unsigned_abs thickness ≤ 2 ^ 31 }
        requires up { unsigned_abs up ≤ 2 ^ 40 }
        ensures value { result ≡ spec.space_above (math_in self.now) style thickness upper.now up }
        ensures bound { unsigned_abs result ≤ unsigned_abs up + 2 ^ 34 }
    {
        let bottom = minus(up, i64::from(upper.depth()));
        let edge = plus(self.symbol_in(style, 22), half(thickness));
        minus(bottom, edge)
    }

    /// The space below the line, in sp.
    #[tactic(auto, unfolding(crate::specs::Fractions::space_below))]
    fn space_below(&self, style: u8, thickness: i64, lower: &BoxNode, down: i64) -> i64
        requires thickness { unsigned_abs thickness ≤ 2 ^ 31 }
        requires down { unsigned_abs down ≤ 2 ^ 40 }
        ensures value { result ≡ spec.space_below (math_in self.now) style thickness lower.now down }
        ensures bound { unsigned_abs result ≤ unsigned_abs down + 2 ^ 34 }
    {
        let edge = minus(self.symbol_in(style, 22), half(thickness));
        let top = minus(i64::from(lower.height()), down);
        minus(edge, top)
    }

    /// How far both are moved without a line.
    fn lineless_shifts(&self, style: u8, upper: &BoxNode, lower: &BoxNode, shifts: Shifts) -> Shifts
        requires { (unsigned_abs shifts.up ≤ 2 ^ 34) × (unsigned_abs shifts.down ≤ 2 ^ 34) }
        ensures value { result ≡ spec.lineless_shifts (math_in self.now) style upper.now lower.now shifts }
        ensures near { AreNear result }
    {
        let lacking = minus(self.apart(style), gap(shifts, upper, lower));
        moved_by(half(lacking), shifts)
    }

    /// How far the numerator is raised with a line of this thickness, in sp.
    fn raised_off(&self, style: u8, thickness: i64, upper: &BoxNode, up: i64) -> i64
        requires thickness { unsigned_abs thickness ≤ 2 ^ 31 }
        requires up { unsigned_abs up ≤ 2 ^ 34 }
        ensures value { result ≡ spec.raised_off (math_in self.now) style thickness upper.now up }
        ensures near { IsNear result }
    {
        let space = self.space_above(style, thickness, upper, up);
        grown(up, minus(clearance(style, thickness), space))
    }

    /// How far the denominator is lowered with a line of this thickness, in sp.
    fn lowered_off(&self, style: u8, thickness: i64, lower: &BoxNode, down: i64) -> i64
        requires thickness { unsigned_abs thickness ≤ 2 ^ 31 }
        requires down { unsigned_abs down ≤ 2 ^ 34 }
        ensures value { result ≡ spec.lowered_off (math_in self.now) style thickness lower.now down }
        ensures near { IsNear result }
    {
        let space = self.space_below(style, thickness, lower, down);
        grown(down, minus(clearance(style, thickness), space))
    }

    /// How far both are moved with a line of this thickness.
    fn lined_shifts(
        &self,
        style: u8,
        thickness: i64,
        upper: &BoxNode,
        lower: &BoxNode,
        shifts: Shifts,
    ) -> Shifts
        requires thickness { unsigned_abs thickness ≤ 2 ^ 31 }
        requires shifts { (unsigned_abs shifts.up ≤ 2 ^ 34) × (unsigned_abs shifts.down ≤ 2 ^ 34) }
        ensures value { result ≡ spec.lined_shifts (math_in self.now) style thickness upper.now lower.now shifts }
        ensures near { AreNear result }
    {
        Shifts {
            up: self.raised_off(style, thickness, upper, shifts.up),
            down: self.lowered_off(style, thickness, lower, shifts.down),
        }
    }

    /// How far the numerator is raised and the denominator lowered.
    fn fraction_shifts(&self, style: u8, thickness: i64, upper: &BoxNode, lower: &BoxNode) -> Shifts
        requires { unsigned_abs thickness ≤ 2 ^ 31 }
        ensures value { result ≡ spec.fraction_shifts (math_in self.now) style thickness upper.now lower.now }
        ensures near { AreNear result }
    {
        let shifts = Shifts {
            up: self.first_raise(style, thickness),
            down: self.first_lowering(style),
        };
        if thickness == 0 {
            self.lineless_shifts(style, upper, lower, shifts)
        } else {
            self.lined_shifts(style, thickness, upper, lower, shifts)
        }
    }

    /// What stands in the box of a fraction with a line of this thickness.
    fn lined_list(
        &self,
        alloc: Global,
        style: u8,
        thickness: i64,
        shifts: Shifts,
        upper: BoxNode,
        lower: BoxNode,
    ) -> Result<Nodes, MathError>
        requires thickness { unsigned_abs thickness ≤ 2 ^ 31 }
        requires near { AreNear shifts }
        ensures made { IfOk result (λ list. spec.lined_list (math_in self.now) style thickness shifts upper lower ≡ Ok list) }
        ensures error { IfErr result (λ e. e ≢ OutOfMemory → spec.lined_list (math_in self.now) style thickness shifts upper lower ≡ Err e) }
    {
        let rule = stored(thickness)?;
        self.list_by_line(alloc, style, rule, shifts, upper, lower)
    }

    /// The same with a line that is so thick, in sp.
    #[tactic(auto, unfolding(crate::specs::Fractions::list_by_line))]
    fn list_by_line(
        &self,
        alloc: Global,
        style: u8,
        rule: i32,
        shifts: Shifts,
        upper: BoxNode,
        lower: BoxNode,
    ) -> Result<Nodes, MathError>
        requires { AreNear shifts }
        ensures made { IfOk result (λ list. spec.list_by_line (math_in self.now) style rule shifts upper lower ≡ Ok list) }
        ensures error { IfErr result (λ e. e ≢ OutOfMemory → spec.list_by_line (math_in self.now) style rule shifts upper lower ≡ Err e) }
    {
        let thickness = i64::from(rule);
        let below = stored(self.space_below(style, thickness, &lower, shifts.down))?;
        let above = stored(self.space_above(style, thickness, &upper, shifts.up))?;
        let upper = boxed(alloc, upper)?;
        let mut list = triple(alloc, upper, kern(above), line(alloc, rule)?)?;
        list.push(kern(below))?;
        list.push(boxed(alloc, lower)?)?;
        Ok(list)
    }

    /// What stands in the box of a fraction.
    #[tactic(auto, unfolding(crate::specs::Fractions::fraction_list))]
    fn fraction_list(
        &self,
        alloc: Global,
        style: u8,
        thickness: i64,
        shifts: Shifts,
        upper: BoxNode,
        lower: BoxNode,
    ) -> Result<Nodes, MathError>
        requires thickness { unsigned_abs thickness ≤ 2 ^ 31 }
        requires near { AreNear shifts }
        ensures made { IfOk result (λ list. spec.fraction_list (math_in self.now) style thickness shifts upper lower ≡ Ok list) }
        ensures error { IfErr result (λ e. e ≢ OutOfMemory → spec.fraction_list (math_in self.now) style thickness shifts upper lower ≡ Err e) }
    {
        if thickness == 0 {
            lineless_list(alloc, shifts, upper, lower)
        } else {
            self.lined_list(alloc, style, thickness, shifts, upper, lower)
        }
    }

    /// The box of a fraction, without what stands on both sides.
    #[tactic(auto, unfolding(crate::specs::Fractions::fraction_box))]
    fn fraction_box(
        &self,
        alloc: Global,
        style: u8,
        thickness: i64,
        shifts: Shifts,
        upper: BoxNode,
        lower: BoxNode,
    ) -> Result<BoxNode, MathError>
        requires thickness { unsigned_abs thickness ≤ 2 ^ 31 }
        requires near { AreNear shifts }
        ensures made { IfOk result (λ made. spec.fraction_box (math_in self.now) style thickness shifts upper lower ≡ Ok made) }
        ensures error { IfErr result (λ e. e ≢ OutOfMemory → spec.fraction_box (math_in self.now) style thickness shifts upper lower ≡ Err e) }
    {
        let width = i64::from(upper.width());
        let height = fraction_height(shifts, &upper);
        let depth = fraction_depth(shifts, &lower);
        let list = self.fraction_list(alloc, style, thickness, shifts, upper, lower)?;
        framed(alloc, width, height, depth, list)
    }

    /// How tall the delimiters of a fraction are at least, in sp.
    fn delimiter_size(&self, style: u8) -> i64
        ensures value { result ≡ spec.delimiter_size (math_in self.now) style }
        ensures bound { unsigned_abs result ≤ 2 ^ 31 }
    {
        if style < 2 {
            self.symbol_in(style, 20)
        } else {
            self.symbol_in(style, 21)
        }
    }

    /// A box between two nodes, in a box of natural size.
    fn packed_between(
        &self,
        alloc: Global,
        left: Node,
        inner: BoxNode,
        right: Node,
    ) -> Result<BoxNode, MathError>
        requires { IsSetter self.now }
        ensures made { IfOk result (λ made. boxes.hbox (math_in self.now) (item_of left ∷ box_item (pos 0) inner ∷ item_of right ∷ []) ≡ Ok made) }
        ensures error { IfErr result (λ e. e ≢ OutOfMemory → boxes.hbox (math_in self.now) (item_of left ∷ box_item (pos 0) inner ∷ item_of right ∷ []) ≡ Err e) }
    {
        let list = enclosed(alloc, left, inner, right)?;
        self.hbox(alloc, list)
    }

    /// The box of a fraction behind its left delimiter, with the right one, so tall at least, in sp, behind it.
    #[tactic(auto, unfolding(crate::specs::Fractions::before_right))]
    fn before_right(
        &self,
        alloc: Global,
        style: u8,
        size: i64,
        delimiter: Delimiter,
        inner: BoxNode,
        left: Node,
    ) -> Result<BoxNode, MathError>
        requires setter { IsSetter self.now }
        requires size { unsigned_abs size ≤ 2 ^ 31 }
        ensures made { IfOk result (λ made. spec.before_right (math_in self.now) style size delimiter inner (item_of left) ≡ Ok made) }
        ensures error { IfErr result (λ e. e ≢ OutOfMemory → spec.before_right (math_in self.now) style size delimiter inner (item_of left) ≡ Err e) }
    {
        let right = self.delimiter_item(alloc, style, delimiter, size)?;
        self.packed_between(alloc, left, inner, right)
    }

    /// The box of a fraction with its delimiters on both sides.
    #[tactic(auto, unfolding(crate::specs::Fractions::between_delimiters))]
    fn between_delimiters(
        &self,
        alloc: Global,
        style: u8,
        head: FractionHead,
        inner: BoxNode,
    ) -> Result<BoxNode, MathError>
        requires { IsSetter self.now }
        ensures made { IfOk result (λ made. spec.between_delimiters (math_in self.now) style head inner ≡ Ok made) }
        ensures error { IfErr result (λ e. e ≢ OutOfMemory → spec.between_delimiters (math_in self.now) style head inner ≡ Err e) }
    {
        let size = self.delimiter_size(style);
        let left = self.delimiter_item(alloc, style, head.left, size)?;
        self.before_right(alloc, style, size, head.right, inner, left)
    }

    /// A fraction with a line of this thickness, in sp, and its delimiters, of a numerator and a denominator of one width.
    #[tactic(auto, unfolding(crate::specs::Fractions::fraction_of))]
    pub fn fraction_of(
        &self,
        alloc: Global,
        style: u8,
        thickness: i64,
        head: FractionHead,
        upper: BoxNode,
        lower: BoxNode,
    ) -> Result<BoxNode, MathError>
        requires setter { IsSetter self.now }
        requires thickness { unsigned_abs thickness ≤ 2 ^ 31 }
        ensures made { IfOk result (λ made. spec.fraction_of (math_in self.now) style thickness head upper lower ≡ Ok made) }
        ensures error { IfErr result (λ e. e ≢ OutOfMemory → spec.fraction_of (math_in self.now) style thickness head upper lower ≡ Err e) }
    {
        let shifts = self.fraction_shifts(style, thickness, &upper, &lower);
        let inner = self.fraction_box(alloc, style, thickness, shifts, upper, lower)?;
        self.between_delimiters(alloc, style, head, inner)
    }
}
