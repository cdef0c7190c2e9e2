//! Box registers (TeX: The Program, section 230).
ghost use Rattle.std.specs.Prelude.{◌≡◌, ◌↔◌, option_copied, IsTrue, IfOk, OnOk};
ghost use Rattle.tx_eqtb.specs.Boxes as spec;

use crate::cells::Cells;
use crate::contents::BoxContents;
use std::alloc::AllocError;
use tx_list::Kept;
use tx_node::BoxNode;
use tx_prim::BoxSide;

/// A box register: the box that it holds, if it isn't void, and how many groups were open when that was assigned (TeX: The
/// Program, section 230).
#[derive(Drop)]
pub struct BoxRegister {
    pub(crate) level: usize,
    pub(crate) held: BoxContents,
}

/// A clone is the same register, and shares its box. Its only error is that no more owners of that can be counted.
impl Clone for BoxRegister {
    ghost is_clone = { λ source copy. copy ≡ source };

    fn clone(&self) -> Result<Self, AllocError> {
        Ok(BoxRegister {
            level: self.level,
            held: self.held.clone()?,
        })
    }
}

impl Kept for BoxRegister {
    fn share(&self) -> Result<Self, AllocError> {
        self.clone()
    }

    fn same(&self, other: &Self) -> bool {
        self.level == other.level && self.held.same(&other.held)
    }
}

impl BoxRegister {
    /// A register that is void, and was so before any group was opened.
    pub(crate) fn void() -> BoxRegister
        ensures { result ≡ spec.void }
    {
        BoxRegister {
            level: 0,
            held: BoxContents::void(),
        }
    }

    /// The same register, whose box has another size, in sp; a void one stays so. Its only error is want of memory.
    fn with_size(self, side: BoxSide, size: i32) -> Result<BoxRegister, AllocError>
        ensures { IfOk result (λ register. register ≡ spec.register_resized side size self) }
    {
        let BoxRegister { level, mut held } = self;
        held.set_size(side, size)?;
        Ok(BoxRegister { level, held })
    }
}

/// The register of a number, of which one more owner is answered; a void one where there is none.
fn register_of(registers: &Cells<BoxRegister>, number: usize) -> Result<BoxRegister, AllocError>
    ensures { IfOk result (λ register. register ≡ spec.register_of registers.now number) }
{
    match registers.get(number) {
        Some(register) => register.clone(),
        None => Ok(BoxRegister::void()),
    }
}

/// The box of a register, lent; None where it is void.
pub(crate) fn box_of(registers: &Cells<BoxRegister>, number: usize) -> Option<&BoxNode>
    ensures { option_copied result ≡ spec.box_of registers.now number }
{
    match registers.get(number) {
        Some(register) => register.held.get(),
        None => None,
    }
}

/// How many groups were open when a register was assigned.
pub(crate) fn level_of(registers: &Cells<BoxRegister>, number: usize) -> usize
    ensures { result ≡ spec.level_of registers.now number }
{
    match registers.get(number) {
        Some(register) => register.level,
        None => 0,
    }
}

/// A size of the box of a register, in sp; 0 where it is void.
pub(crate) fn size_of(registers: &Cells<BoxRegister>, side: BoxSide, number: usize) -> i32
    ensures { result ≡ spec.size_of side (spec.box_of registers.now number) }
{
    match registers.get(number) {
        Some(register) => register.held.size(side),
        None => 0,
    }
}

/// Gives the box of a register another size, in sp; a void one stays so. After want of memory, its only error, the registers may
/// only be dropped.
pub(crate) fn set_size(
    registers: &mut Cells<BoxRegister>,
    side: BoxSide,
    number: usize,
    size: i32,
) -> Result<(), AllocError>
    ensures { OnOk result (registers.new ≡ spec.with_size registers.old side number size) }
{
    let register = register_of(registers, number)?;
    registers.set(number, register.with_size(side, size)?)
}
