//! By which page what stands at a place of a file is first read.

/// The first row whose reads an edit at a place of a file touches.
#[derive(Clone, Copy)]
pub enum Located {
    /// That of the page of this number, counted from 1.
    Page(usize),
    /// None, but such an edit touches those of the stretch behind the last page.
    After,
    /// Nothing: such an edit leaves all that was read.
    Nowhere,
}
