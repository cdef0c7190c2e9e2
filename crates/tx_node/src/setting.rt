//! Where items stand once glue is set.
ghost use Rattle.std.specs.Prelude.{◌≡◌, ◌<◌, ◌^◌, unsigned_abs};
ghost use Rattle.tx_node.specs.Nodes.{item_of};
ghost use Rattle.tx_node.specs.Setting as spec;

use crate::head::{Change, Setting};
use crate::node::Node;
use tx_num::{Glue, set_at};

/// A size that counts where its order is the one that is asked for.
fn of_order(order: u8, size: i64, has: u8) -> i64
    ensures { result ≡ spec.of_order order size has }
{
    if has == order { size } else { 0 }
}

/// How much glue has of the stretch or shrink of an order, in sp.
pub fn glue_part(change: Change, order: u8, glue: &Glue) -> i64
    ensures value { result ≡ spec.glue_part change order glue.now }
    ensures size { unsigned_abs result < 2 ^ 30 }
{
    match change {
        Change::Stretch => of_order(order, glue.stretch(), glue.stretch_order()),
        Change::Shrink => of_order(order, glue.shrink(), glue.shrink_order()),
    }
}

impl Setting {
    /// What a node adds to the stretch or shrink that is set, in sp.
    pub fn share(&self, node: &Node) -> i64
        ensures value { result ≡ spec.share self.now (item_of node.now) }
        ensures size { unsigned_abs result < 2 ^ 30 }
    {
        match (self, node.glue()) {
            (Setting::Set(set), Some(glue)) => glue_part(set.change, set.order, &glue),
            (Setting::Set(_), None) | (Setting::Natural, _) => 0,
        }
    }

    /// How far set glue has moved what stands behind so much of it, in sp.
    pub fn moved(&self, sum: i64) -> i64
        requires is_set { spec.IsSet self.now }
        requires sum_in { unsigned_abs sum < 2 ^ 31 }
        ensures { result ≡ spec.moved self.now sum }
    {
        match self {
            Setting::Natural => 0,
            Setting::Set(set) => set_at(i64::from(set.total), i64::from(set.excess), sum),
        }
    }
}
