//! A class of insertions on a page.

/// Where a class was split: the place on the page of the insertion that was, and the place in the list of this insertion at which
/// it was broken, its length where nothing remains.
#[derive(Clone, Copy, PartialEq, Eq)]
pub struct Cut {
    pub insert: usize,
    pub place: usize,
}

/// A class of insertions that is on a page (TeX: The Program, section 981): its number; how high and deep its box will be together,
/// in sp, as far as it is known; and where it was split, None where it wasn't.
#[derive(Clone, Copy, PartialEq, Eq)]
pub struct Class {
    pub number: u8,
    pub size: i32,
    pub split: Option<Cut>,
}
