//! Scripts (TeX: The Program, sections 756 to 759).
ghost use Rattle.std.specs.Prelude.{◌≡◌, ◌≢◌, ◌≤◌, ◌+◌, ◌^◌, unsigned_abs, IfOk, IfErr, Ok, Err};
ghost use Rattle.tx_node.specs.Nodes.{item_of};
ghost use Rattle.tx_math.specs.Scripts as spec;
ghost use Rattle.tx_math.specs.Setters.{AreEdges, AreNear, IsSetter, math_in};
ghost use Rattle.tx_math.specs.declared.error.MathError.TheVariants.{OutOfMemory};

use crate::boxes::{boxed, kern, shifted, stored, triple, with_width};
use crate::error::MathError;
use crate::parameters::{four_fifths, quarter};
use crate::setter::Setter;
use crate::shifts::Shifts;
use crate::styles::script_size;
use crate::sums::{greater, minus, negated, plus, times};
use std::alloc::Global;
use tx_node::{BoxNode, Node, Nodes};

/// The space between the bottom of what is raised and the top of what is lowered, in sp.
#[tactic(auto, unfolding(crate::specs::Scripts::gap))]
pub fn gap(shifts: Shifts, upper: &BoxNode, lower: &BoxNode) -> i64
    requires { AreNear shifts }
    ensures value { result ≡ spec.gap shifts upper.now lower.now }
    ensures near { unsigned_abs result ≤ unsigned_abs shifts.up + unsigned_abs shifts.down + 2 ^ 32 }
{
    let bottom = minus(shifts.up, i64::from(upper.depth()));
    let top = minus(i64::from(lower.height()), shifts.down);
    minus(bottom, top)
}

/// What stands in the box of two scripts, the upper one so many sp further to the right.
#[tactic(auto, unfolding(crate::specs::Scripts::stack_list))]
fn stack_list(
    alloc: Global,
    offset: i64,
    shifts: Shifts,
    upper: BoxNode,
    lower: BoxNode,
) -> Result<Nodes, MathError>
    requires { AreNear shifts }
    ensures made { IfOk result (λ list. spec.stack_list offset shifts upper lower ≡ Ok list) }
    ensures error { IfErr result (λ e. e ≢ OutOfMemory → spec.stack_list offset shifts upper lower ≡ Err e) }
{
    let space = gap(shifts, &upper, &lower);
    let upper = shifted(alloc, offset, upper)?;
    let space = stored(space)?;
    let lower = boxed(alloc, lower)?;
    Ok(triple(alloc, upper, kern(space), lower)?)
}

/// Both raised by so many sp, if that is something.
fn both_raised(by: i64, shifts: Shifts) -> Shifts
    requires by { unsigned_abs by ≤ 2 ^ 38 }
    requires shifts { (unsigned_abs shifts.up ≤ 2 ^ 38) × (unsigned_abs shifts.down ≤ 2 ^ 38) }
    ensures value { result ≡ spec.both_raised by shifts }
    ensures near { AreNear result }
{
    if 0 < by {
        Shifts {
            up: plus(shifts.up, by),
            down: minus(shifts.down, by),
        }
    } else {
        shifts
    }
}

impl Setter<'_> {
    /// How far scripts are moved at first, in sp, behind what is so high and deep.
    pub fn first_shifts(&self, style: u8, edges: Option<(i64, i64)>) -> Shifts
        requires { AreEdges edges }
        ensures value { result ≡ spec.first_shifts (math_in self.now) style edges }
        ensures near { (unsigned_abs result.up ≤ 2 ^ 34) × (unsigned_abs result.down ≤ 2 ^ 34) }
    {
        match edges {
            None => Shifts { up: 0, down: 0 },
            Some((height, depth)) => Shifts {
                up: minus(height, self.symbol(script_size(style), 18)),
                down: plus(depth, self.symbol(script_size(style), 19)),
            },
        }
    }

    /// The box of a script, wider by \scriptspace.
    pub fn spaced_script(&self, inner: BoxNode) -> Result<BoxNode, MathError>
        ensures { result ≡ spec.spaced_script (math_in self.now) inner }
    {
        let width = plus(
            i64::from(inner.width()),
            i64::from(self.params.script_space),
        );
        with_width(inner, width)
    }

    /// How far a subscript alone is lowered, in sp.
    fn lowered(&self, style: u8, down: i64, lower: &BoxNode) -> i64
        requires { unsigned_abs down ≤ 2 ^ 34 }
        ensures { result ≡ spec.lowered (math_in self.now) style down lower.now }
    {
        greater(
            self.first_lowered(style, down),
            self.below_top(style, lower),
        )
    }

    /// The greater of how far a subscript was lowered and how far it is at least, in sp.
    #[tactic(auto, unfolding(crate::specs::Scripts::first_lowered))]
    fn first_lowered(&self, style: u8, down: i64) -> i64
        requires { unsigned_abs down ≤ 2 ^ 34 }
        ensures value { result ≡ spec.first_lowered (math_in self.now) style down }
        ensures near { unsigned_abs result ≤ 2 ^ 34 }
    {
        greater(down, self.symbol_in(style, 16))
    }

    /// How far a subscript is lowered whose top is at four fifths of the x-height, in sp.
    #[tactic(auto, unfolding(crate::specs::Scripts::below_top))]
    fn below_top(&self, style: u8, lower: &BoxNode) -> i64
        ensures value { result ≡ spec.below_top (math_in self.now) style lower.now }
        ensures near { unsigned_abs result ≤ 2 ^ 32 }
    {
        let height = i64::from(lower.height());
        minus(height, four_fifths(self.symbol_in(style, 5)))
    }

    /// How far a superscript is raised at least, in sp.
    fn least_raise(&self, style: u8) -> i64
        ensures value { result ≡ spec.least_raise (math_in self.now) style }
        ensures bound { unsigned_abs result ≤ 2 ^ 31 }
    {
        if style % 2 > 0 {
            self.symbol_in(style, 15)
        } else if style < 2 {
            self.symbol_in(style, 13)
        } else {
            self.symbol_in(style, 14)
        }
    }

    /// How far a superscript is raised, in sp.
    fn raised(&self, style: u8, up: i64, upper: &BoxNode) -> i64
        requires { unsigned_abs up ≤ 2 ^ 34 }
        ensures value { result ≡ spec.raised (math_in self.now) style up upper.now }
        ensures near { unsigned_abs result ≤ 2 ^ 34 }
    {
        greater(
            self.first_raised(style, up),
            self.above_bottom(style, upper),
        )
    }

    /// The greater of how far a superscript was raised and how far it is at least, in sp.
    #[tactic(auto, unfolding(crate::specs::Scripts::first_raised))]
    fn first_raised(&self, style: u8, up: i64) -> i64
        requires { unsigned_abs up ≤ 2 ^ 34 }
        ensures value { result ≡ spec.first_raised (math_in self.now) style up }
        ensures near { unsigned_abs result ≤ 2 ^ 34 }
    {
        greater(up, self.least_raise(style))
    }

    /// How far a superscript is raised whose bottom is at a quarter of the x-height, in sp.
    #[tactic(auto, unfolding(crate::specs::Scripts::above_bottom))]
    fn above_bottom(&self, style: u8, upper: &BoxNode) -> i64
        ensures value { result ≡ spec.above_bottom (math_in self.now) style upper.now }
        ensures near { unsigned_abs result ≤ 2 ^ 32 }
    {
        let depth = i64::from(upper.depth());
        plus(depth, quarter(self.symbol_in(style, 5)))
    }

    /// How far both scripts are moved that lack so many sp of the space between them.
    fn set_apart(&self, style: u8, upper: &BoxNode, lacking: i64, shifts: Shifts) -> Shifts
        requires lacking { unsigned_abs lacking ≤ 2 ^ 37 }
        requires shifts { (unsigned_abs shifts.up ≤ 2 ^ 34) × (unsigned_abs shifts.down ≤ 2 ^ 34) }
        ensures value { result ≡ spec.set_apart (math_in self.now) style upper.now lacking shifts }
        ensures near { AreNear result }
    {
        if 0 < lacking {
            let bottom = minus(shifts.up, i64::from(upper.depth()));
            let lower = Shifts {
                up: shifts.up,
                down: plus(shifts.down, lacking),
            };
            both_raised(minus(four_fifths(self.symbol_in(style, 5)), bottom), lower)
        } else {
            shifts
        }
    }

    /// How far both scripts are moved.
    fn both_shifts(&self, style: u8, shifts: Shifts, upper: &BoxNode, lower: &BoxNode) -> Shifts
        requires { (unsigned_abs shifts.up ≤ 2 ^ 34) × (unsigned_abs shifts.down ≤ 2 ^ 34) }
        ensures value { result ≡ spec.both_shifts (math_in self.now) style shifts upper.now lower.now }
        ensures near { AreNear result }
    {
        let lacking = minus(
            times(4, self.extension_in(style, 8)),
            gap(shifts, upper, lower),
        );
        self.set_apart(style, upper, lacking, shifts)
    }

    /// A subscript alone, as a node.
    #[tactic(auto, unfolding(crate::specs::Scripts::subscript_item))]
    pub fn subscript_item(
        &self,
        alloc: Global,
        style: u8,
        shifts: Shifts,
        lower: BoxNode,
    ) -> Result<Node, MathError>
        requires { unsigned_abs shifts.down ≤ 2 ^ 34 }
        ensures made { IfOk result (λ node. spec.subscript_item (math_in self.now) style shifts lower ≡ Ok (item_of node)) }
        ensures error { IfErr result (λ e. e ≢ OutOfMemory → spec.subscript_item (math_in self.now) style shifts lower ≡ Err e) }
    {
        let down = self.lowered(style, shifts.down, &lower);
        shifted(alloc, down, lower)
    }

    /// A superscript alone, as a node.
    #[tactic(auto, unfolding(crate::specs::Scripts::superscript_item))]
    pub fn superscript_item(
        &self,
        alloc: Global,
        style: u8,
        shifts: Shifts,
        upper: BoxNode,
    ) -> Result<Node, MathError>
        requires { unsigned_abs shifts.up ≤ 2 ^ 34 }
        ensures made { IfOk result (λ node. spec.superscript_item (math_in self.now) style shifts upper ≡ Ok (item_of node)) }
        ensures error { IfErr result (λ e. e ≢ OutOfMemory → spec.superscript_item (math_in self.now) style shifts upper ≡ Err e) }
    {
        let up = self.raised(style, shifts.up, &upper);
        shifted(alloc, negated(up), upper)
    }

    /// Both scripts, one above the other, so many sp further to the right than the other.
    #[tactic(auto, unfolding(crate::specs::Scripts::stacked))]
    fn stacked(
        &self,
        alloc: Global,
        offset: i64,
        shifts: Shifts,
        upper: BoxNode,
        lower: BoxNode,
    ) -> Result<Node, MathError>
        requires setter { IsSetter self.now }
        requires near { AreNear shifts }
        ensures made { IfOk result (λ node. spec.stacked (math_in self.now) offset shifts upper lower ≡ Ok (item_of node)) }
        ensures error { IfErr result (λ e. e ≢ OutOfMemory → spec.stacked (math_in self.now) offset shifts upper lower ≡ Err e) }
    {
        let inner = self.stack_box(alloc, offset, shifts, upper, lower)?;
        shifted(alloc, shifts.down, inner)
    }

    /// The box of both.
    #[tactic(auto, unfolding(crate::specs::Scripts::stack_box))]
    fn stack_box(
        &self,
        alloc: Global,
        offset: i64,
        shifts: Shifts,
        upper: BoxNode,
        lower: BoxNode,
    ) -> Result<BoxNode, MathError>
        requires setter { IsSetter self.now }
        requires near { AreNear shifts }
        ensures made { IfOk result (λ made. spec.stack_box (math_in self.now) offset shifts upper lower ≡ Ok made) }
        ensures error { IfErr result (λ e. e ≢ OutOfMemory → spec.stack_box (math_in self.now) offset shifts upper lower ≡ Err e) }
    {
        let list = stack_list(alloc, offset, shifts, upper, lower)?;
        self.vbox(alloc, list)
    }

    /// Both scripts as a node, behind which the superscript stands so many sp further to the right.
    #[tactic(auto, unfolding(crate::specs::Scripts::scripts_item))]
    pub fn scripts_item(
        &self,
        alloc: Global,
        style: u8,
        offset: i64,
        shifts: Shifts,
        upper: BoxNode,
        lower: BoxNode,
    ) -> Result<Node, MathError>
        requires setter { IsSetter self.now }
        requires near { (unsigned_abs shifts.up ≤ 2 ^ 34) × (unsigned_abs shifts.down ≤ 2 ^ 34) }
        ensures made { IfOk result (λ node. spec.scripts_item (math_in self.now) style offset shifts upper lower ≡ Ok (item_of node)) }
        ensures error { IfErr result (λ e. e ≢ OutOfMemory → spec.scripts_item (math_in self.now) style offset shifts upper lower ≡ Err e) }
    {
        let both = self.script_shifts(style, shifts, &upper, &lower);
        self.stacked(alloc, offset, both, upper, lower)
    }

    /// How far both scripts are moved that were moved so far at first.
    #[tactic(auto, unfolding(crate::specs::Scripts::script_shifts))]
    fn script_shifts(&self, style: u8, shifts: Shifts, upper: &BoxNode, lower: &BoxNode) -> Shifts
        requires { (unsigned_abs shifts.up ≤ 2 ^ 34) × (unsigned_abs shifts.down ≤ 2 ^ 34) }
        ensures value { result ≡ spec.script_shifts (math_in self.now) style shifts upper.now lower.now }
        ensures near { AreNear result }
    {
        let first = Shifts {
            up: self.raised(style, shifts.up, upper),
            down: greater(shifts.down, self.symbol_in(style, 17)),
        };
        self.both_shifts(style, first, upper, lower)
    }
}
