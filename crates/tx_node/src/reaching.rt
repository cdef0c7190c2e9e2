//! How far a list has come, and where its items stand once glue is set.
ghost use Rattle.std.specs.Prelude.{◌≡◌, ◌≤◌, ◌<◌, ◌+◌, ◌^◌, unsigned_abs};
ghost use Rattle.tx_node.specs.Nodes.{item_of};
ghost use Rattle.tx_node.specs.Setting as spec;

use crate::head::BoxHead;
use crate::node::Node;
use crate::places::Reached;

impl BoxHead {
    /// Where an item stands behind so much of the list of the box, from where this begins, once its glue is set; in sp.
    pub fn stands(&self, reached: Reached) -> i128
        requires is_set { spec.IsSet self.now.setting }
        requires natural { unsigned_abs reached.natural ≤ 2 ^ 97 }
        requires sum { unsigned_abs reached.sum < 2 ^ 30 }
        ensures value { result ≡ spec.stands self.now.setting (spec.reach_of reached) }
        ensures near { unsigned_abs result ≤ 2 ^ 98 }
    {
        reached.natural + i128::from(self.setting.moved(reached.sum))
    }

    /// How far the list has come behind a node, whose part of what is set leaves the sum a dimension.
    pub fn behind(&self, reached: Reached, node: &Node) -> Reached
        requires natural { unsigned_abs reached.natural ≤ 2 ^ 96 }
        requires sum { unsigned_abs reached.sum < 2 ^ 30 }
        ensures value { spec.reach_of result ≡ spec.behind self.now.direction self.now.setting (spec.reach_of reached) (item_of node.now) }
        ensures near { unsigned_abs result.natural ≤ unsigned_abs reached.natural + 2 ^ 32 }
    {
        Reached {
            natural: reached.natural + i128::from(node.advance(self.direction)),
            sum: reached.sum + self.setting.share(node),
        }
    }
}
