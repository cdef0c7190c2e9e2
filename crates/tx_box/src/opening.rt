//! How a group begins (TeX: The Program, section 274).
ghost use Rattle.std.specs.Prelude.{IfOk};
ghost use Rattle.tx_box.specs.Opening.{IsOpened};

use std::alloc::AllocError;
use tx_eqtb::{Eqtb, GroupKind, OpenError};

/// Opens a group of this kind, unless 255 are open; the answer is whether it did. Its only error is want of memory.
pub(crate) fn open_group(table: &mut Eqtb, kind: GroupKind) -> Result<bool, AllocError>
    ensures { IfOk result (λ opened. IsOpened kind table.old opened table.new) }
{
    match table.open_group(kind) {
        Ok(()) => Ok(true),
        Err(OpenError::TooMany) => Ok(false),
        Err(OpenError::OutOfMemory) => Err(AllocError),
    }
}
