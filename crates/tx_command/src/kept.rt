//! What stands before a command can be shared, and compared exactly.
use crate::types::Head;
use std::alloc::AllocError;
use tx_list::Kept;
use tx_node::{same_box, same_rule};

impl Kept for Head {
    fn share(&self) -> Result<Self, AllocError> {
        match self {
            Head::Fresh => Ok(Head::Fresh),
            Head::Prefixed(prefixes) => Ok(Head::Prefixed(*prefixes)),
            Head::Defining(prefixes, defined, kind) => Ok(Head::Defining(
                *prefixes,
                defined.clone()?,
                *kind,
            )),
            Head::Future(prefixes, defined) => Ok(Head::Future(*prefixes, defined.clone()?)),
            Head::Leading(kind, rule) => Ok(Head::Leading(*kind, *rule)),
            Head::LeadingBox(kind, repeated) => Ok(Head::LeadingBox(*kind, repeated.clone()?)),
            Head::Shift => Ok(Head::Shift),
            Head::Part(part) => Ok(Head::Part(*part)),
            Head::Delimiting(delimiting) => Ok(Head::Delimiting(*delimiting)),
            Head::Thickness(left, right) => Ok(Head::Thickness(*left, *right)),
            Head::Accenting(prefixes) => Ok(Head::Accenting(*prefixes)),
            Head::Loading(prefixes, defined) => Ok(Head::Loading(*prefixes, defined.clone()?)),
            Head::Shaping(prefixes, left, sizes) => {
                Ok(Head::Shaping(*prefixes, *left, sizes.share()?))
            }
            Head::Opening(opener) => Ok(Head::Opening(*opener)),
            Head::Aligning(level) => Ok(Head::Aligning(*level)),
            Head::Preamble => Ok(Head::Preamble),
            Head::Row => Ok(Head::Row),
            Head::Entry => Ok(Head::Entry),
            Head::SecondShift => Ok(Head::SecondShift),
            Head::Displayed => Ok(Head::Displayed),
        }
    }

    fn same(&self, other: &Self) -> bool {
        match (self, other) {
            (Head::Fresh, Head::Fresh) => true,
            (Head::Prefixed(one), Head::Prefixed(other)) => *one == *other,
            (Head::Defining(one, defined, kind), Head::Defining(other, also, like)) => {
                *one == *other && *kind == *like && defined.same(also)
            }
            (Head::Future(one, defined), Head::Future(other, also)) => {
                *one == *other && defined.same(also)
            }
            (Head::Leading(one, rule), Head::Leading(other, also)) => {
                *one == *other && same_rule(*rule, *also)
            }
            (Head::LeadingBox(one, repeated), Head::LeadingBox(other, also)) => {
                *one == *other && same_box(repeated, also)
            }
            (Head::Shift, Head::Shift) => true,
            (Head::Part(one), Head::Part(other)) => *one == *other,
            (Head::Delimiting(one), Head::Delimiting(other)) => *one == *other,
            (Head::Thickness(one, right), Head::Thickness(other, also)) => {
                *one == *other && *right == *also
            }
            (Head::Accenting(one), Head::Accenting(other)) => *one == *other,
            (Head::Loading(one, defined), Head::Loading(other, also)) => {
                *one == *other && defined.same(also)
            }
            (Head::Shaping(one, left, sizes), Head::Shaping(other, also, like)) => {
                *one == *other && *left == *also && sizes.same(like)
            }
            (Head::Opening(one), Head::Opening(other)) => *one == *other,
            (Head::Aligning(one), Head::Aligning(other)) => *one == *other,
            (Head::Preamble, Head::Preamble) => true,
            (Head::Row, Head::Row) => true,
            (Head::Entry, Head::Entry) => true,
            (Head::SecondShift, Head::SecondShift) => true,
            (Head::Displayed, Head::Displayed) => true,
            _ => false,
        }
    }
}
