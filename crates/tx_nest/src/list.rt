//! A list that is being built.
ghost use Rattle.std.specs.Prelude.{◌≡◌, ◌↔◌, [], IsTrue, IfOk};
ghost use Rattle.tx_nest.specs.Grafs.{list_within};
ghost use Rattle.tx_nest.specs.States.{begun, mode_of};

use crate::graf::begun_graf;
use crate::state::ModeState;
use std::alloc::{AllocError, Global};
use tx_list::Kept;
use tx_node::Nodes;
use tx_prim::Mode;

/// A list that is being built, with its mode and what this keeps beside it (TeX: The Program, section 213).
#[derive(Drop)]
pub struct ModeList {
    pub state: ModeState,
    pub nodes: Nodes,
    /// \prevgraf of the innermost vertical list, which is this one or stands around it.
    pub prev_graf: u32,
}

impl ModeList {
    /// An empty list in a mode; takes no memory.
    pub fn new(alloc: Global, mode: Mode) -> ModeList
        ensures { result ≡ record { state = begun mode; nodes = []; prev_graf = 0 } }
    {
        ModeList {
            state: ModeState::begun(mode),
            nodes: Nodes::new(alloc),
            prev_graf: 0,
        }
    }

    /// An empty list in a mode, which begins in another list; takes no memory.
    pub fn within(alloc: Global, mode: Mode, around: &ModeList) -> ModeList
        ensures { result ≡ list_within mode around.now }
    {
        ModeList {
            state: ModeState::begun(mode),
            nodes: Nodes::new(alloc),
            prev_graf: begun_graf(mode, around.prev_graf),
        }
    }

    /// The mode.
    pub fn mode(&self) -> Mode
        ensures { result ≡ mode_of self.now.state }
    {
        self.state.mode()
    }

    /// Whether both are the same list in the same mode, with the same beside it.
    pub fn same(&self, other: &ModeList) -> bool
        ensures { IsTrue result ↔ (self.now ≡ other.now) }
    {
        same_state(self.state, other.state)
            && self.prev_graf == other.prev_graf
            && self.nodes.same(&other.nodes)
    }

    /// A second list, equal to this one, which shares its boxes. Its only error is want of memory.
    pub fn share(&self) -> Result<ModeList, AllocError>
        ensures { IfOk result (λ twin. twin ≡ self.now) }
    {
        Ok(ModeList {
            state: self.state,
            nodes: self.nodes.clone()?,
            prev_graf: self.prev_graf,
        })
    }
}

/// Whether two modes keep the same.
fn same_state(one: ModeState, other: ModeState) -> bool
    ensures { IsTrue result ↔ (one ≡ other) }
{
    one == other
}

impl Kept for ModeList {
    fn share(&self) -> Result<Self, AllocError> {
        ModeList::share(self)
    }

    fn same(&self, other: &Self) -> bool {
        ModeList::same(self, other)
    }
}
