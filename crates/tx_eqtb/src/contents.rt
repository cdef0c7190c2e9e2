//! What box registers hold.
ghost use Rattle.std.specs.Prelude.{◌≡◌, ◌↔◌, None, option_copied, option_map, IsTrue, IfOk, OnOk};
ghost use Rattle.tx_eqtb.specs.Boxes as spec;

use std::alloc::{AllocError, Global};
use std::marker::Model;
use std::rc::Rc;
use tx_node::{BoxNode, same_box};
use tx_prim::BoxSide;

/// What a box register holds: a box, or none where it is void. It is small, since entries of the table are moved with each
/// token; clones share the box. Contracts see the box, None where it is void.
#[derive(Drop)]
pub struct BoxContents {
    packed: Option<Rc<BoxNode>>,
}

impl Model for BoxContents {
    ghost use Rattle.std.specs.Prelude.{Option, option_map};
    ghost use Rattle.std.specs.Coded.{coded_option};
    ghost use Rattle.tx_node.specs.Codes.{box_code};
    ghost use Rattle.tx_node.specs.Items.{PackedBox};

    ghost Value = { Option PackedBox };

    ghost coded = { coded_option box_code };

    ghost view = { λ c. option_map (λ shared. shared.value) c.packed };
}

/// A clone is the same. Its only error is that no more owners of the box can be counted.
impl Clone for BoxContents {
    ghost is_clone = { λ source copy. copy ≡ source };

    fn clone(&self) -> Result<Self, AllocError> {
        match &self.packed {
            Some(shared) => Ok(BoxContents {
                packed: Some(shared.clone()?),
            }),
            None => Ok(BoxContents::void()),
        }
    }
}

/// A size of a box, in sp.
fn side_of(side: BoxSide, packed: &BoxNode) -> i32
    ensures { result ≡ spec.side_of side packed.now }
{
    match side {
        BoxSide::Width => packed.width(),
        BoxSide::Height => packed.height(),
        BoxSide::Depth => packed.depth(),
    }
}

/// Gives a box another size, in sp; its list isn't packed anew.
fn resize(side: BoxSide, size: i32, packed: &mut BoxNode)
    ensures { packed.new ≡ spec.resized side size packed.old }
{
    match side {
        BoxSide::Width => packed.set_width(size),
        BoxSide::Height => packed.set_height(size),
        BoxSide::Depth => packed.set_depth(size),
    }
}

/// Gives a box that may be shared another size, in sp; only this owner sees it. Its only error is want of memory.
fn resize_in(side: BoxSide, size: i32, shared: &mut Rc<BoxNode>) -> Result<(), AllocError>
    ensures { OnOk result (shared.new.value ≡ spec.resized side size shared.old.value) }
{
    resize(side, size, Rc::make_mut(shared)?);
    Ok(())
}

impl BoxContents {
    /// No box.
    pub fn void() -> BoxContents
        ensures { result ≡ None }
    {
        BoxContents { packed: None }
    }

    /// This box, or none. Its only error is want of memory.
    pub fn new(alloc: Global, packed: Option<BoxNode>) -> Result<BoxContents, AllocError>
        ensures { IfOk result (λ contents. contents ≡ packed) }
    {
        match packed {
            Some(packed) => Ok(BoxContents {
                packed: Some(Rc::new(alloc, packed)?),
            }),
            None => Ok(BoxContents::void()),
        }
    }

    /// The box, lent; None where there is none.
    pub fn get(&self) -> Option<&BoxNode>
        ensures { option_copied result ≡ self.now }
    {
        match &self.packed {
            Some(shared) => Some(shared.as_ref()),
            None => None,
        }
    }

    /// Whether both hold equal boxes, or none.
    pub(crate) fn same(&self, other: &BoxContents) -> bool
        ensures { IsTrue result ↔ (self.now ≡ other.now) }
    {
        match (self.get(), other.get()) {
            (None, None) => true,
            (Some(one), Some(other)) => same_box(one, other),
            (None, Some(_)) | (Some(_), None) => false,
        }
    }

    /// A size of the box, in sp; 0 where there is none.
    pub(crate) fn size(&self, side: BoxSide) -> i32
        ensures { result ≡ spec.size_of side self.now }
    {
        match self.get() {
            Some(packed) => side_of(side, packed),
            None => 0,
        }
    }

    /// Gives the box, if there is one, another size, in sp. After want of memory, its only error, this may only be dropped.
    pub(crate) fn set_size(&mut self, side: BoxSide, size: i32) -> Result<(), AllocError>
        ensures { OnOk result (self.new ≡ option_map (spec.resized side size) self.old) }
    {
        match &mut self.packed {
            Some(shared) => resize_in(side, size, shared),
            None => Ok(()),
        }
    }
}
