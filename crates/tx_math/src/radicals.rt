//! \radical (TeX: The Program, sections 705 and 737).
ghost use Rattle.std.specs.Prelude.{◌≡◌, ◌≢◌, ◌≤◌, ◌^◌, ◌∷◌, ◌+ℤ◌, [], neg_ℤ, pos, unsigned_abs, IfOk, IfErr, Ok, Err};
ghost use Rattle.tx_node.specs.Items.{box_item};
ghost use Rattle.tx_math.specs.Boxes as boxes;
ghost use Rattle.tx_math.specs.Radicals as spec;
ghost use Rattle.tx_math.specs.Setters.{IsSetter, math_in};
ghost use Rattle.tx_math.specs.declared.error.MathError.TheVariants.{OutOfMemory};

use crate::boxes::{boxed, pair, stored};
use crate::error::MathError;
use crate::lines::below_line;
use crate::parameters::{half, quarter};
use crate::setter::Setter;
use crate::signs::Sign;
use crate::sums::{minus, negated, plus};
use std::alloc::{AllocError, Global};
use tx_mlist::Delimiter;
use tx_node::{BoxNode, Node, Nodes};

/// How far it is from the depth of what stands below the line to the line, in sp.
#[tactic(auto, unfolding(crate::specs::Radicals::radicand_size))]
fn radicand_size(inner: &BoxNode, clearance: i64) -> i64
    requires { unsigned_abs clearance ≤ 2 ^ 32 }
    ensures value { result ≡ spec.radicand_size inner.now clearance }
    ensures bound { unsigned_abs result ≤ 2 ^ 33 }
{
    let size = plus(i64::from(inner.height()), i64::from(inner.depth()));
    plus(size, clearance)
}

/// The space below the line, in sp, with half of what the sign is deeper, if it is.
fn grown_by(excess: i64, clearance: i64) -> i64
    requires excess { unsigned_abs excess ≤ 2 ^ 34 }
    requires clearance { unsigned_abs clearance ≤ 2 ^ 32 }
    ensures value { result ≡ spec.grown_by excess clearance }
    ensures bound { unsigned_abs result ≤ 2 ^ 35 }
{
    if 0 < excess {
        plus(clearance, half(excess))
    } else {
        clearance
    }
}

/// The space below the line of this sign, in sp, which was so great at first.
#[tactic(auto, unfolding(crate::specs::Radicals::clearance_of))]
fn clearance_of(sign: &BoxNode, inner: &BoxNode, clearance: i64) -> i64
    requires { unsigned_abs clearance ≤ 2 ^ 32 }
    ensures value { result ≡ spec.clearance_of sign.now inner.now clearance }
    ensures bound { unsigned_abs result ≤ 2 ^ 35 }
{
    let excess = minus(i64::from(sign.depth()), radicand_size(inner, clearance));
    grown_by(excess, clearance)
}

/// How far down the sign is shifted, in sp: its top is at the line's. `SizeOutOfRange` exactly where that is no dimension.
fn shift_of(inner: &BoxNode, clearance: i64) -> Result<i32, MathError>
    requires { unsigned_abs clearance ≤ 2 ^ 35 }
    ensures { result ≡ boxes.stored (neg_ℤ (inner.now.head.height +ℤ clearance)) }
{
    let up = plus(i64::from(inner.height()), clearance);
    stored(negated(up))
}

/// A box that is shifted by so many sp, and another one behind it. Its only error is want of memory.
fn beside(alloc: Global, shift: i32, left: BoxNode, right: BoxNode) -> Result<Nodes, AllocError>
    ensures { IfOk result (λ list. list ≡ box_item shift left ∷ box_item (pos 0) right ∷ []) }
{
    let left = Node::from_box(alloc, shift, left)?;
    let right = boxed(alloc, right)?;
    pair(alloc, left, right)
}

impl Setter<'_> {
    /// The size of which a quarter is added to the space below the line, in sp.
    fn clearance_unit(&self, style: u8) -> i64
        ensures value { result ≡ spec.clearance_unit (math_in self.now) style }
        ensures bound { unsigned_abs result ≤ 2 ^ 31 }
    {
        if style < 2 {
            self.symbol_in(style, 5)
        } else {
            self.extension_in(style, 8)
        }
    }

    /// The space below the line at first, in sp.
    #[tactic(auto, unfolding(crate::specs::Radicals::first_clearance))]
    fn first_clearance(&self, style: u8) -> i64
        ensures value { result ≡ spec.first_clearance (math_in self.now) style }
        ensures bound { unsigned_abs result ≤ 2 ^ 32 }
    {
        let unit = self.clearance_unit(style);
        plus(self.extension_in(style, 8), quarter(unit))
    }

    /// How tall the sign has to be, in sp.
    #[tactic(auto, unfolding(crate::specs::Radicals::sign_size))]
    fn sign_size(&self, style: u8, inner: &BoxNode) -> i64
        ensures value { result ≡ spec.sign_size (math_in self.now) style inner.now }
        ensures bound { unsigned_abs result ≤ 2 ^ 34 }
    {
        let size = radicand_size(inner, self.first_clearance(style));
        plus(size, self.extension_in(style, 8))
    }

    /// What stands below a line of this thickness, with that space between them, in sp, and a space above the line.
    #[tactic(auto, unfolding(crate::specs::Radicals::barred))]
    fn barred(
        &self,
        alloc: Global,
        thickness: i32,
        clearance: i64,
        inner: BoxNode,
    ) -> Result<BoxNode, MathError>
        requires { IsSetter self.now }
        ensures made { IfOk result (λ made. spec.barred (math_in self.now) thickness clearance inner ≡ Ok made) }
        ensures error { IfErr result (λ e. e ≢ OutOfMemory → spec.barred (math_in self.now) thickness clearance inner ≡ Err e) }
    {
        let space = stored(clearance)?;
        let list = below_line(alloc, thickness, space, inner)?;
        self.vbox(alloc, list)
    }

    /// A box that is shifted by so many sp, and another one behind it, in a box of natural size.
    fn packed_beside(
        &self,
        alloc: Global,
        shift: i32,
        left: BoxNode,
        right: BoxNode,
    ) -> Result<BoxNode, MathError>
        requires { IsSetter self.now }
        ensures made { IfOk result (λ made. boxes.hbox (math_in self.now) (box_item shift left ∷ box_item (pos 0) right ∷ []) ≡ Ok made) }
        ensures error { IfErr result (λ e. e ≢ OutOfMemory → boxes.hbox (math_in self.now) (box_item shift left ∷ box_item (pos 0) right ∷ []) ≡ Err e) }
    {
        let list = beside(alloc, shift, left, right)?;
        self.hbox(alloc, list)
    }

    /// A sign that is shifted by so many sp, and behind it what stands below the line.
    #[tactic(auto, unfolding(crate::specs::Radicals::before_bar))]
    fn before_bar(
        &self,
        alloc: Global,
        shift: i32,
        sign: BoxNode,
        clearance: i64,
        inner: BoxNode,
    ) -> Result<BoxNode, MathError>
        requires { IsSetter self.now }
        ensures made { IfOk result (λ made. spec.before_bar (math_in self.now) shift sign clearance inner ≡ Ok made) }
        ensures error { IfErr result (λ e. e ≢ OutOfMemory → spec.before_bar (math_in self.now) shift sign clearance inner ≡ Err e) }
    {
        let bar = self.barred(alloc, sign.height(), clearance, inner)?;
        self.packed_beside(alloc, shift, sign, bar)
    }

    /// The same with the sign's top at the line's.
    #[tactic(auto, unfolding(crate::specs::Radicals::rooted))]
    fn rooted(
        &self,
        alloc: Global,
        sign: BoxNode,
        clearance: i64,
        inner: BoxNode,
    ) -> Result<BoxNode, MathError>
        requires setter { IsSetter self.now }
        requires clearance { unsigned_abs clearance ≤ 2 ^ 35 }
        ensures made { IfOk result (λ made. spec.rooted (math_in self.now) sign clearance inner ≡ Ok made) }
        ensures error { IfErr result (λ e. e ≢ OutOfMemory → spec.rooted (math_in self.now) sign clearance inner ≡ Err e) }
    {
        let shift = shift_of(&inner, clearance)?;
        self.before_bar(alloc, shift, sign, clearance, inner)
    }

    /// What stands in a box behind the sign of a radical and below its line.
    #[tactic(auto, unfolding(crate::specs::Radicals::radical))]
    pub fn radical(
        &self,
        alloc: Global,
        style: u8,
        delimiter: Delimiter,
        inner: BoxNode,
    ) -> Result<BoxNode, MathError>
        requires { IsSetter self.now }
        ensures made { IfOk result (λ made. spec.radical (math_in self.now) style delimiter inner ≡ Ok made) }
        ensures error { IfErr result (λ e. e ≢ OutOfMemory → spec.radical (math_in self.now) style delimiter inner ≡ Err e) }
    {
        let asked = self.sign_size(style, &inner);
        let Sign { inner: sign, .. } = self.sign_of(alloc, style, delimiter, asked)?;
        let clearance = clearance_of(&sign, &inner, self.first_clearance(style));
        self.rooted(alloc, sign, clearance, inner)
    }
}
