//! Fonts that were loaded, each with its name.
ghost use Rattle.std.specs.Prelude.{◌≡◌, ◌↔◌, ◌≤◌, length, IsTrue, IfOk};
ghost use Rattle.tx_tfm.specs.Fonts as spec;

use super::font::Font;
use super::rules::Size;
use std::alloc::{AllocError, Global};
use std::marker::Model;
use std::rc::Rc;
use tx_bytes::Bytes;
use tx_list::Kept;

/// A font with its name.
#[derive(Drop)]
pub struct NamedFont {
    /// The name as \font was given it.
    pub name: Bytes,
    pub font: Font,
}

/// What can be told of every font whose name isn't too long.
pub(crate) fn tellable(font: &NamedFont)
    requires { length font.now.name ≤ 255 }
    ensures { spec.IsTellable font.now }
{
    let _checksum = font.font.checksum();
    let _size = font.font.size();
    let _design_size = font.font.design_size();
}

/// A font that was loaded. It is one pointer; clones share the font. Contracts see it as the record `NamedFont`.
#[derive(Drop)]
pub struct LoadedFont {
    held: Rc<NamedFont>,
}

impl Model for LoadedFont {
    ghost use Rattle.tx_tfm.specs.declared.named.NamedFont.{NamedFont};

    ghost Value = { NamedFont };

    ghost view = { λ f. f.held.value };
}

impl LoadedFont {
    /// The font, as one that can be shared. Its only error is want of memory.
    pub fn new(alloc: Global, font: NamedFont) -> Result<LoadedFont, AllocError>
        ensures { IfOk result (λ loaded. loaded ≡ font) }
    {
        Ok(LoadedFont {
            held: Rc::new(alloc, font)?,
        })
    }

    /// The font with its name, lent.
    pub fn named(&self) -> &NamedFont
        ensures { result.now ≡ self.now }
    {
        self.held.as_ref()
    }
}

/// A clone is the same font. Its only error is that no more owners can be counted.
impl Clone for LoadedFont {
    ghost is_clone = { λ source copy. copy ≡ source };

    fn clone(&self) -> Result<Self, AllocError> {
        Ok(LoadedFont {
            held: self.held.clone()?,
        })
    }
}

impl Kept for LoadedFont {
    fn share(&self) -> Result<Self, AllocError> {
        LoadedFont::clone(self)
    }

    fn same(&self, other: &Self) -> bool {
        same_font(self.named(), other.named())
    }
}

/// Whether two fonts have the same name, size and bytes.
fn same_font(a: &NamedFont, b: &NamedFont) -> bool
    ensures { IsTrue result ↔ (a.now ≡ b.now) }
{
    a.name.same(&b.name) && a.font.same(&b.font)
}

impl NamedFont {
    /// Whether \font with this name and size gives this font once more.
    pub(crate) fn is_asked(&self, name: &[u8], size: Size) -> bool
        ensures { result ≡ spec.is_asked name.now size self.now }
    {
        self.name.as_slice() == name && self.font.is_used_at(size)
    }
}
