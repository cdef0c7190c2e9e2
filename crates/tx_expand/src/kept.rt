//! What has begun can be kept: a second one like it can be made, and two of them can be compared.
ghost use Rattle.std.specs.Prelude.{◌≡◌};

use crate::begun::Begun;
use crate::part::Part;
use std::alloc::AllocError;
use tx_list::Kept;

/// A clone has read the same. Its only error is want of memory.
impl Clone for Part {
    ghost is_clone = { λ source copy. copy ≡ source };

    fn clone(&self) -> Result<Self, AllocError> {
        match self {
            Part::Name(scan) => Ok(Part::Name(scan.clone()?)),
            Part::Quantity { to } => Ok(Part::Quantity { to: *to }),
            Part::Shown(scan, to) => Ok(Part::Shown(scan.clone()?, *to)),
            Part::Integer(scan, figures) => Ok(Part::Integer(scan.clone()?, *figures)),
            Part::Test(scan) => Ok(Part::Test(scan.clone()?)),
            Part::File(scan) => Ok(Part::File(scan.clone()?)),
            Part::Font(scan) => Ok(Part::Font(*scan)),
        }
    }
}

impl Kept for Begun {
    fn share(&self) -> Result<Self, AllocError> {
        match self {
            Begun::Use(using) => Ok(Begun::Use(using.share()?)),
            Begun::After => Ok(Begun::After),
            Begun::Before(token) => Ok(Begun::Before(token.clone()?)),
            Begun::Once => Ok(Begun::Once),
            Begun::Hold => Ok(Begun::Hold),
            Begun::Print(what) => Ok(Begun::Print(*what)),
            Begun::Scanning(scanning) => Ok(Begun::Scanning(scanning.share()?)),
            Begun::Skipping(skipper) => Ok(Begun::Skipping(skipper.share())),
            Begun::Opening => Ok(Begun::Opening),
        }
    }

    fn same(&self, other: &Self) -> bool {
        match (self, other) {
            (Begun::Use(one), Begun::Use(other)) => one.same(other),
            (Begun::After, Begun::After) => true,
            (Begun::Before(one), Begun::Before(other)) => one.same(other),
            (Begun::Once, Begun::Once) => true,
            (Begun::Hold, Begun::Hold) => true,
            (Begun::Print(one), Begun::Print(other)) => one == other,
            (Begun::Scanning(one), Begun::Scanning(other)) => one.same(other),
            (Begun::Skipping(one), Begun::Skipping(other)) => one.same(other),
            (Begun::Opening, Begun::Opening) => true,
            _ => false,
        }
    }
}
