//! What copies and boxes that are shipped cost, which are turns of their own.
ghost use Rattle.std.specs.Prelude.{◌≡◌};
ghost use Rattle.tx_box.specs.DueWork as spec;

use crate::parts::Work;

impl Work {
    /// What a turn costs that does this: the nodes that are copied or shipped, boxes and all that they hold, at least 1; those of each
    /// copy that leaders make are shipped.
    pub fn cost(&self) -> u64
        ensures { result ≡ spec.work_cost self.now }
    {
        match self {
            Work::Copy(found, _) => found.count(),
            Work::Ship(found) | Work::ShipPage(found) => found.shipped(),
            Work::CopyList(list) => list.count().max(1),
            Work::Build => 1,
        }
    }
}
