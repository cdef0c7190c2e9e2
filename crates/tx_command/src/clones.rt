//! A clone of the scans of a command's parts is the same as its source; its only error is want of memory.
ghost use Rattle.std.specs.Prelude.{◌≡◌, IfOk};

use crate::scans::Scans;
use std::alloc::AllocError;
use tx_list::both;

/// Clones of five values, or want of memory. Of any five, so that it is proved without what they are made of.
fn clones<A: Clone + Drop, B: Clone + Drop, C: Clone + Drop, D: Clone + Drop, E: Clone + Drop>(
    one: &A,
    two: &B,
    three: &C,
    four: &D,
    five: &E,
) -> Result<(A, ((B, C), (D, E))), AllocError>
    ensures { IfOk result (λ made. A.is_clone one.now made.0 × ((B.is_clone two.now made.1.0.0 × C.is_clone three.now made.1.0.1) × (D.is_clone four.now made.1.1.0 × E.is_clone five.now made.1.1.1))) }
{
    let middle = both(two.clone(), three.clone());
    let last = both(four.clone(), five.clone());
    both(one.clone(), both(middle, last))
}

impl Clone for Scans {
    ghost is_clone = { λ source copy. copy ≡ source };

    fn clone(&self) -> Result<Self, AllocError> {
        let (assignment, ((size, rule), (shape, loading))) = clones(
            &self.assignment,
            &self.size,
            &self.rule,
            &self.shape,
            &self.loading,
        )?;
        Ok(Scans {
            stage: self.stage,
            assignment,
            size,
            rule,
            shape,
            loading,
        })
    }
}
