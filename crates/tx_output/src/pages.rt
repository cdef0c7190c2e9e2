//! What is kept of pages.
ghost use Rattle.std.specs.Prelude.{◌≡◌, ◌↔◌, IsTrue, IfOk};
ghost use Rattle.tx_output.specs.Pages as spec;

use crate::last::{LastItem, same_item};
use crate::marks::Marks;
use crate::output::Output;
use std::alloc::{AllocError, Global};
use tx_list::both;
use tx_pagebuilder::Page;

/// What is kept of pages: the one that is being built and its last node, the marks, \deadcycles, and the output that has begun.
#[derive(Drop)]
pub struct Pages {
    pub page: Page,
    pub last: LastItem,
    pub marks: Marks,
    pub dead_cycles: i32,
    pub output: Output,
}

impl Pages {
    /// What a run begins with; takes no memory.
    pub fn new(alloc: Global) -> Pages
        ensures { result ≡ spec.first_pages }
    {
        Pages {
            page: Page::new(alloc),
            last: LastItem::Other,
            marks: Marks::new(),
            dead_cycles: 0,
            output: Output::new(),
        }
    }

    /// Whether both are the same.
    pub fn same(&self, other: &Pages) -> bool
        ensures { IsTrue result ↔ (self.now ≡ other.now) }
    {
        self.dead_cycles == other.dead_cycles
            && same_item(&self.last, &other.last)
            && self.marks.same(&other.marks)
            && self.output.same(&other.output)
            && self.page.same(&other.page)
    }

    /// The same once more, which shares its boxes and its token lists. Its only error is want of memory.
    pub fn share(&self) -> Result<Pages, AllocError>
        ensures { IfOk result (λ shared. shared ≡ self.now) }
    {
        let parts = both(
            self.page.share(),
            both(self.marks.share(), self.output.share()),
        );
        let (page, (marks, output)) = parts?;
        Ok(Pages {
            page,
            last: self.last,
            marks,
            dead_cycles: self.dead_cycles,
            output,
        })
    }
}
