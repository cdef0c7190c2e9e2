//! What hyphenation makes of items.
ghost use Rattle.std.specs.Prelude.{◌≡◌, OnOk};
ghost use Rattle.tx_hyphenate.specs.Hyphenated as spec;

use std::alloc::AllocError;
use tx_bytes::Bytes;
use tx_node::Nodes;

/// Items, and the lines of the transcript of hyphens that their fonts lack.
#[derive(Drop)]
pub struct Made {
    pub items: Nodes,
    pub report: Bytes,
}

/// Puts items as they are behind what is made. Its only error is want of memory.
pub(crate) fn keep(made: &mut Made, mut items: Nodes) -> Result<(), AllocError>
    ensures { OnOk result (made.new ≡ spec.joined made.old (spec.kept items)) }
{
    made.items.append(&mut items)
}
