//! Lists as stacks.
ghost use Rattle.std.specs.Prelude.{◌≡◌, ◌++◌, IfOk, OnOk};

use std::alloc::{AllocError, Global};
use tx_list::{Items, Stack};

/// A list as a stack, its first value on top. Its only error is want of memory.
pub fn stacked<T: Drop>(alloc: Global, values: Items<T>) -> Result<Stack<T>, AllocError>
    ensures { IfOk result (λ stack. stack ≡ values) }
{
    let mut left = values;
    let mut stack = Stack::new(alloc);
    while let Some(value) = left.pop() {
        stack.push(value)?;
    }
    Ok(stack)
}

/// Puts the values of a stack, the top one first, behind others. Its only error is want of memory.
pub fn unstack<T: Drop>(stack: Stack<T>, done: &mut Items<T>) -> Result<(), AllocError>
    ensures { OnOk result (done.new ≡ done.old ++ stack) }
{
    let mut stack = stack;
    while let Some(value) = stack.pop() {
        done.push(value)?;
    }
    Ok(())
}
