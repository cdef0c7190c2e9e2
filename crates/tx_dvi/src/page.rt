//! What a page brings to the file.
ghost use Rattle.std.specs.Prelude.{◌≡◌, ◌≤◌, length, IfOk};
ghost use Rattle.std.specs.List.{All};
ghost use Rattle.tx_dvi.specs.Page.{IsNamed};

use crate::font::FontDefinition;
use std::alloc::{AllocError, Global};
use std::marker::Model;
use std::rc::Rc;
use tx_bytes::Bytes;
use tx_list::Items;

/// The parameters \year, \month, \day and \time (minutes since midnight). A document may set them to anything.
#[derive(Clone, Copy)]
pub struct DateParameters {
    pub year: i32,
    pub month: i32,
    pub day: i32,
    pub time: i32,
}

/// What the DVI file is told of a page. Contracts see it as the record `Page` of the same fields.
#[derive(Drop)]
pub struct PageParts {
    /// The commands between bop and eop, at most 200,000 bytes.
    pub body: Bytes,
    /// The fonts that these define, in their order; each name has at most 255 bytes.
    pub fonts: Items<FontDefinition>,
    /// \count0 to \count9.
    pub counts: [i32; 10],
    /// Its height plus its depth plus \voffset, in sp.
    pub height: i32,
    /// Its width plus \hoffset, in sp.
    pub width: i32,
    /// The greatest nesting of boxes below the page box, at most 500.
    pub nesting: u16,
    /// \mag, 1 to 32768.
    pub mag: u16,
    /// The date parameters at the \shipout.
    pub date: DateParameters,
}

impl Model for PageParts {
    ghost use Rattle.std.specs.Prelude.{length};
    ghost use Rattle.tx_dvi.specs.Page.{Page, InRange};

    ghost Value = { Page };

    ghost view = { λ p. record {
      body = p.body;
      fonts = p.fonts;
      counts = p.counts;
      height = p.height;
      width = p.width;
      nesting = p.nesting;
      mag = p.mag;
      date = p.date;
    } };

    ghost invariant = { λ p. InRange (length p.body) p.fonts (length p.counts) p.nesting p.mag };
}

/// A page as it stands in a DVI file, without the frame that depends on the pages before it. It is one pointer, so that an
/// event which may hold a page stays small; clones share the page. Contracts see it as the record `Page`.
#[derive(Drop)]
pub struct PageBody {
    parts: Rc<PageParts>,
}

impl Model for PageBody {
    ghost use Rattle.tx_dvi.specs.Page.{Page};

    ghost Value = { Page };

    ghost view = { λ p. p.parts.value };
}

impl PageBody {
    /// The page of these parts. Its only error is want of memory.
    pub fn new(alloc: Global, parts: PageParts) -> Result<PageBody, AllocError>
        ensures { IfOk result (λ page. page ≡ parts) }
    {
        Ok(PageBody {
            parts: Rc::new(alloc, parts)?,
        })
    }

    /// What the DVI file is told of it, lent.
    pub fn parts(&self) -> &PageParts
        ensures { result.now ≡ self.now }
    {
        self.parts.as_ref()
    }

    /// The commands between bop and eop, lent.
    pub fn body(&self) -> &[u8]
        ensures bytes { result.now ≡ self.now.body }
        ensures bound { length self.now.body ≤ 200000 }
        ensures ten { length self.now.counts ≡ 10 }
    {
        self.parts().body.as_slice()
    }

    /// The fonts that it defines, lent.
    pub fn fonts(&self) -> &[FontDefinition]
        ensures fonts { result.now ≡ self.now.fonts }
        ensures names { All IsNamed self.now.fonts }
    {
        self.parts().fonts.as_slice()
    }
}

/// A clone is the same page. Its only error is that no more owners can be counted.
impl Clone for PageBody {
    ghost is_clone = { λ source copy. copy ≡ source };

    fn clone(&self) -> Result<Self, AllocError> {
        Ok(PageBody {
            parts: self.parts.clone()?,
        })
    }
}
