//! The sizes of \parshape.
ghost use Rattle.std.specs.Prelude.{◌≡◌, ◌↔◌, [], IsTrue, IfOk};

use std::alloc::{AllocError, Global};
use std::marker::Model;
use std::rc::Rc;
use tx_list::{Items, same_items};

/// No sizes.
const NONE: [i32; 0] = [];

/// The sizes of \parshape, in sp: of each line how far it is indented, then how wide it is. It is small, since entries of the table
/// are moved with each token; clones share the sizes. Contracts see their list, which is empty where \parshape tells no lines.
#[derive(Drop)]
pub struct ParShape {
    sizes: Option<Rc<Items<i32>>>,
}

impl Model for ParShape {
    ghost use Rattle.std.specs.Prelude.{List, [], ℤ, option_map, unwrap_or};

    ghost Value = { List ℤ };

    ghost view = { λ shape. unwrap_or (option_map (λ shared. shared.value) shape.sizes) [] };
}

/// A clone shares the sizes. Its only error is that no more owners can be counted.
impl Clone for ParShape {
    ghost is_clone = { λ source copy. copy ≡ source };

    fn clone(&self) -> Result<Self, AllocError> {
        match &self.sizes {
            Some(shared) => Ok(ParShape {
                sizes: Some(shared.clone()?),
            }),
            None => Ok(ParShape::none()),
        }
    }
}

impl ParShape {
    /// No lines.
    pub fn none() -> ParShape
        ensures { result ≡ [] }
    {
        ParShape { sizes: None }
    }

    /// These sizes. Its only error is want of memory.
    pub fn new(alloc: Global, sizes: Items<i32>) -> Result<ParShape, AllocError>
        ensures { IfOk result (λ shape. shape ≡ sizes) }
    {
        Ok(ParShape {
            sizes: Some(Rc::new(alloc, sizes)?),
        })
    }

    /// The sizes, lent.
    pub fn as_slice(&self) -> &[i32]
        ensures { result.now ≡ self.now }
    {
        match &self.sizes {
            Some(shared) => shared.as_ref().as_slice(),
            None => &NONE,
        }
    }

    /// Whether both have the same sizes.
    pub(crate) fn same(&self, other: &ParShape) -> bool
        ensures { IsTrue result ↔ (self.now ≡ other.now) }
    {
        same_items(self.as_slice(), other.as_slice())
    }
}
