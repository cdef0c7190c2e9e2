//! Lines above and below formulas, and \vcenter (TeX: The Program, sections 734 to 736).
ghost use Rattle.std.specs.Prelude.{◌≡◌, ◌≢◌, ◌∷◌, [], pos, IfOk, IfErr, Ok, Err};
ghost use Rattle.tx_node.specs.Items.{box_item};
ghost use Rattle.tx_math.specs.Boxes as boxes;
ghost use Rattle.tx_math.specs.Lines as spec;
ghost use Rattle.tx_math.specs.Setters.{IsSetter, math_in};
ghost use Rattle.tx_math.specs.declared.error.MathError.TheVariants.{OutOfMemory};

use crate::boxes::{boxed, kern, line, stored, triple, with_height};
use crate::error::MathError;
use crate::parameters::half;
use crate::setter::Setter;
use crate::sums::{minus, plus, times};
use std::alloc::{AllocError, Global};
use tx_node::{BoxNode, Nodes};

/// A box so high, in sp, that reaches as far as it did and by a line more.
fn rebased(thickness: i32, height: i32, inner: BoxNode) -> Result<BoxNode, MathError>
    ensures { result ≡ spec.rebased thickness height inner }
{
    let size = plus(i64::from(inner.height()), i64::from(inner.depth()));
    let reach = plus(size, i64::from(thickness));
    let height = i64::from(height);
    with_height(inner, height, minus(reach, height))
}

/// Three times a thickness, in sp.
#[tactic(auto, unfolding(crate::specs::Lines::threefold))]
fn threefold(thickness: i32) -> i64
    ensures { result ≡ spec.threefold thickness }
{
    times(3, i64::from(thickness))
}

/// What stands below a line of this thickness, from the top: the space above the line, the line, a space, and a box. In sp. Its
/// only error is want of memory.
pub fn below_line(
    alloc: Global,
    thickness: i32,
    space: i32,
    inner: BoxNode,
) -> Result<Nodes, AllocError>
    ensures { IfOk result (λ list. list ≡ boxes.kern thickness ∷ boxes.line thickness ∷ boxes.kern space ∷ box_item (pos 0) inner ∷ []) }
{
    let line = line(alloc, thickness)?;
    let mut list = triple(alloc, kern(thickness), line, kern(space))?;
    list.push(boxed(alloc, inner)?)?;
    Ok(list)
}

/// A box, a space below it, and a line of this thickness. In sp. Its only error is want of memory.
fn spaced_line(
    alloc: Global,
    thickness: i32,
    space: i32,
    inner: BoxNode,
) -> Result<Nodes, AllocError>
    ensures { IfOk result (λ list. list ≡ box_item (pos 0) inner ∷ boxes.kern space ∷ boxes.line thickness ∷ []) }
{
    let inner = boxed(alloc, inner)?;
    let line = line(alloc, thickness)?;
    triple(alloc, inner, kern(space), line)
}

impl Setter<'_> {
    /// What stands in a box below a line, \overline.
    #[tactic(auto, unfolding(crate::specs::Lines::overlined))]
    pub fn overlined(&self, alloc: Global, style: u8, inner: BoxNode) -> Result<BoxNode, MathError>
        requires { IsSetter self.now }
        ensures made { IfOk result (λ made. spec.overlined (math_in self.now) style inner ≡ Ok made) }
        ensures error { IfErr result (λ e. e ≢ OutOfMemory → spec.overlined (math_in self.now) style inner ≡ Err e) }
    {
        let thickness = stored(self.extension_in(style, 8))?;
        self.overlined_by(alloc, thickness, inner)
    }

    /// The same with a line of this thickness, in sp.
    #[tactic(auto, unfolding(crate::specs::Lines::overlined_by))]
    fn overlined_by(
        &self,
        alloc: Global,
        thickness: i32,
        inner: BoxNode,
    ) -> Result<BoxNode, MathError>
        requires { IsSetter self.now }
        ensures made { IfOk result (λ made. spec.overlined_by (math_in self.now) thickness inner ≡ Ok made) }
        ensures error { IfErr result (λ e. e ≢ OutOfMemory → spec.overlined_by (math_in self.now) thickness inner ≡ Err e) }
    {
        let space = stored(threefold(thickness))?;
        let list = below_line(alloc, thickness, space, inner)?;
        self.vbox(alloc, list)
    }

    /// What stands in a box above a line, \underline.
    #[tactic(auto, unfolding(crate::specs::Lines::underlined))]
    pub fn underlined(&self, alloc: Global, style: u8, inner: BoxNode) -> Result<BoxNode, MathError>
        requires { IsSetter self.now }
        ensures made { IfOk result (λ made. spec.underlined (math_in self.now) style inner ≡ Ok made) }
        ensures error { IfErr result (λ e. e ≢ OutOfMemory → spec.underlined (math_in self.now) style inner ≡ Err e) }
    {
        let thickness = stored(self.extension_in(style, 8))?;
        self.underlined_by(alloc, thickness, inner)
    }

    /// The same with a line of this thickness, in sp.
    #[tactic(auto, unfolding(crate::specs::Lines::underlined_by))]
    fn underlined_by(
        &self,
        alloc: Global,
        thickness: i32,
        inner: BoxNode,
    ) -> Result<BoxNode, MathError>
        requires { IsSetter self.now }
        ensures made { IfOk result (λ made. spec.underlined_by (math_in self.now) thickness inner ≡ Ok made) }
        ensures error { IfErr result (λ e. e ≢ OutOfMemory → spec.underlined_by (math_in self.now) thickness inner ≡ Err e) }
    {
        let height = inner.height();
        let made = self.above_line(alloc, thickness, inner)?;
        rebased(thickness, height, made)
    }

    /// What stands in a box above a line of this thickness, in sp, from whose top the baseline is told.
    #[tactic(auto, unfolding(crate::specs::Lines::above_line))]
    fn above_line(
        &self,
        alloc: Global,
        thickness: i32,
        inner: BoxNode,
    ) -> Result<BoxNode, MathError>
        requires { IsSetter self.now }
        ensures made { IfOk result (λ made. spec.above_line (math_in self.now) thickness inner ≡ Ok made) }
        ensures error { IfErr result (λ e. e ≢ OutOfMemory → spec.above_line (math_in self.now) thickness inner ≡ Err e) }
    {
        let space = stored(threefold(thickness))?;
        let list = spaced_line(alloc, thickness, space, inner)?;
        self.vbox(alloc, list)
    }

    /// A box half of which stands above the axis, \vcenter.
    #[tactic(auto, unfolding(crate::specs::Lines::vcentred))]
    pub fn vcentred(&self, style: u8, inner: BoxNode) -> Result<BoxNode, MathError>
        ensures { result ≡ spec.vcentred (math_in self.now) style inner }
    {
        let size = plus(i64::from(inner.height()), i64::from(inner.depth()));
        let height = plus(self.symbol_in(style, 22), half(size));
        with_height(inner, height, minus(size, height))
    }
}
