//! The table of category codes.
ghost use Rattle.std.specs.Prelude.{◌≡◌, ◌↔◌, ◌<◌, ℕ, length, slice_set, slice_index_or, IsTrue, IfOk, OnOk, OnErr};
ghost use Rattle.tx_char.specs.Category.{category, initial_category, initial_codes};

use crate::category::Cat;
use std::alloc::{AllocError, Global};
use std::marker::Model;
use std::rc::Rc;

/// How many character codes there are.
const CODES: usize = 256;

/// The category of each of the 256 character codes. Contracts see the list of the 256 categories, in the codes'
/// order. Shared copies take one block of memory between them until one of them changes.
#[derive(Drop)]
pub struct Codes {
    table: Rc<Categories>,
}

/// The categories themselves, which `Codes` may share.
#[derive(Drop)]
struct Categories {
    by_code: [Cat; CODES],
}

impl Model for Codes {
    ghost use Rattle.std.specs.Prelude.{List};
    ghost use Rattle.tx_char.specs.declared.category.Cat.{Cat};

    ghost Value = { List Cat };

    ghost view = { λ c. c.table.value.by_code };
}

impl Clone for Categories {
    ghost is_clone = { λ source copy. copy.by_code ≡ source.by_code };

    fn clone(&self) -> Result<Self, AllocError> {
        Ok(Categories {
            by_code: self.by_code,
        })
    }
}

impl Codes {
    /// The table with which INITEX begins. Its only error is want of memory.
    pub fn initex(alloc: Global) -> Result<Codes, AllocError>
        ensures { IfOk result (λ codes. codes ≡ initial_codes) }
    {
        let by_code = initex_categories();
        Ok(Codes {
            table: Rc::new(alloc, Categories { by_code })?,
        })
    }

    /// The category of this character code.
    pub fn get(&self, code: u8) -> Cat
        ensures value { result ≡ category self.now code }
        ensures whole { length self.now ≡ 256 }
    {
        self.table.by_code[code as usize]
    }

    /// Gives this character code this category; copies that share the table keep theirs. After want of memory nothing
    /// has changed.
    pub fn set(&mut self, code: u8, category: Cat) -> Result<(), AllocError>
        ensures ok { OnOk result (self.new ≡ slice_set self.old code category) }
        ensures err { OnErr result (self.new ≡ self.old) }
    {
        set_in(&mut self.table, code, category)
    }

    /// Whether both give each character code the same category.
    pub fn same(&self, other: &Codes) -> bool
        ensures { IsTrue result ↔ (self.now ≡ other.now) }
    {
        same_categories(&self.table.by_code, &other.table.by_code)
    }
}

/// A clone shares the table. Its only error is that no more owners can be counted.
impl Clone for Codes {
    ghost is_clone = { λ source copy. copy ≡ source };

    fn clone(&self) -> Result<Self, AllocError> {
        Ok(Codes {
            table: self.table.clone()?,
        })
    }
}

/// The category with which INITEX begins for this character code.
fn category_in_initex(code: u8) -> Cat
    ensures { result ≡ initial_category code }
{
    match code {
        b'\\' => Cat::Escape,
        b'%' => Cat::Comment,
        b'\r' => Cat::EndOfLine,
        b' ' => Cat::Space,
        0 => Cat::Ignored,
        127 => Cat::Invalid,
        b'A'..=b'Z' | b'a'..=b'z' => Cat::Letter,
        _ => Cat::Other,
    }
}

/// The categories with which INITEX begins, in the codes' order.
fn initex_categories() -> [Cat; CODES]
    ensures { result ≡ initial_codes }
{
    let mut by_code = [Cat::Other; CODES];
    for code in 0..CODES {
        by_code[code] = category_in_initex(code as u8);
    }
    by_code
}

/// Changes one category of a table that may be shared, of which only this owner sees the change.
fn set_in(table: &mut Rc<Categories>, code: u8, category: Cat) -> Result<(), AllocError>
    ensures ok { OnOk result (table.new.value.by_code ≡ slice_set table.old.value.by_code code category) }
    ensures err { OnErr result (table.new.value.by_code ≡ table.old.value.by_code) }
{
    let own = Rc::make_mut(table)?;
    own.by_code[code as usize] = category;
    Ok(())
}

/// Whether two tables hold the same categories.
fn same_categories(one: &[Cat], other: &[Cat]) -> bool
    ensures { IsTrue result ↔ (one.now ≡ other.now) }
{
    one == other
}
