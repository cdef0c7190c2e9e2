//! What waits for the end of \output.
ghost use Rattle.std.specs.Prelude.{◌≡◌, ◌↔◌, ◌++◌, IsTrue, IfOk, OnErr};

use std::alloc::AllocError;
use tx_node::Nodes;

/// The insertions that are held over to the next page, and what was contributed from the break on.
#[derive(Drop)]
pub struct Waiting {
    pub held: Nodes,
    pub rest: Nodes,
}

impl Waiting {
    /// What is held over, a list, and what remains, which leaves this. After want of memory nothing has changed.
    pub(crate) fn join(&mut self, built: Nodes) -> Result<Nodes, AllocError>
        ensures ok { IfOk result (λ list. list ≡ self.old.held ++ built ++ self.old.rest) }
        ensures same { OnErr result (self.new ≡ self.old) }
    {
        let mut built = built;
        let mut list = self.held.clone()?;
        list.append(&mut built)?;
        list.append(&mut self.rest)?;
        Ok(list)
    }

    /// Whether both are the same.
    pub fn same(&self, other: &Waiting) -> bool
        ensures { IsTrue result ↔ (self.now ≡ other.now) }
    {
        self.held.same(&other.held) && self.rest.same(&other.rest)
    }

    /// The same once more, which shares its boxes. Its only error is want of memory.
    pub fn share(&self) -> Result<Waiting, AllocError>
        ensures { IfOk result (λ twin. twin ≡ self.now) }
    {
        Ok(Waiting {
            held: self.held.clone()?,
            rest: self.rest.clone()?,
        })
    }
}
