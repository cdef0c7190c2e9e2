//! The tokens of \output end with a marker (TeX: The Program, section 1026).
ghost use Rattle.std.specs.Prelude.{◌≡◌, IsTrue, IfOk};
ghost use Rattle.tx_pending.specs.Elements.{step};
ghost use Rattle.tx_makeup.specs.Markers as spec;

use std::alloc::{AllocError, Global};
use tx_eqtb::Eqtb;
use tx_pending::{Next, Pending};

/// Whether the tokens of \output end here: their marker comes next, and is taken away. Where it is false, what was read is lost.
/// Its only error is want of memory.
pub fn take_marker(alloc: Global, input: &mut Pending, table: &Eqtb) -> Result<bool, AllocError>
    ensures told { IfOk result (λ at_end. at_end ≡ spec.is_marker (step table.now.table.categories input.old).next) }
    ensures left { IfOk result (λ at_end. IsTrue at_end → input.new ≡ (step table.now.table.categories input.old).left) }
{
    match input.next_known(alloc, table.categories(), table)? {
        Next::Marker => Ok(true),
        Next::Token(_) | Next::Held(_) => Ok(false),
        Next::PartEnd(_) => Ok(false),
        Next::Used { .. } | Next::E1 => Ok(false),
    }
}
