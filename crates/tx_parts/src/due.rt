//! Work of boxes that is due.
ghost use Rattle.std.specs.Prelude.{◌≡◌, ◌∷◌, OnOk};

use crate::parts::Due;
use std::alloc::AllocError;
use tx_box::Work;
use tx_list::Stack;

/// This work of boxes comes before all else that is due. Its only error is want of memory. (A crate that pushed it itself would prove
/// again how each piece of work is dropped.)
pub fn push_work(due: &mut Stack<Due>, work: Work) -> Result<(), AllocError>
    ensures { OnOk result (due.new ≡ Due.Boxes work ∷ due.old) }
{
    due.push(Due::Boxes(work))
}
