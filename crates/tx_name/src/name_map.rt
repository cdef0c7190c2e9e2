//! The map: the number that a name's bytes are mixed to says on which shelf it stands, and in which bucket there.
ghost use Rattle.std.specs.Prelude.{◌≡◌, ◌↔◌, ◌<◌, IsTrue, IfOk, OnOk, OnErr};
ghost use Rattle.std.specs.Option.{option_copied, option_map};
ghost use Rattle.std.specs.FinMap.{empty, get, insert, remove};
ghost use Rattle.tx_name.specs.Buckets.{bucket_of};

use crate::parts::{SHELVES, same_parts, spot_of};
use crate::shelf::Shelf;
use std::alloc::{AllocError, Global};
use std::marker::Model;
use std::rc::Rc;
use tx_char::{ControlName, mixed};
use tx_list::Kept;

/// A finite map from names to values. Contracts see the map. Shared maps have one list of shelves between them until one
/// of them changes, and then each shelf, and each bucket of a shelf, that neither has changed.
#[derive(Drop)]
pub struct NameMap<T> {
    shelves: Rc<Vec<Rc<Shelf<T>>>>,
}

impl<T> Model for NameMap<T> {
    ghost use Rattle.std.specs.Prelude.{ℕ};
    ghost use Rattle.std.specs.Coded.{coded_ℕ, coded_list};
    ghost use Rattle.std.specs.FinMap as map;
    ghost use Rattle.tx_name.specs.Names.{Names};

    ghost Value = { Names T };

    ghost coded = { map.code (coded_list coded_ℕ) T.code };

    ghost use Rattle.tx_name.specs.Buckets.{IsPlaced, held, shelf_of, together};

    ghost view = { λ m. together (held m.shelves.value.items) };

    ghost invariant = { λ m. IsPlaced shelf_of (held m.shelves.value.items) };
}

impl<T: Kept> NameMap<T> {
    /// The map in which no name has a value. Its only error is want of memory.
    pub fn new(alloc: Global) -> Result<NameMap<T>, AllocError>
        ensures { IfOk result (λ m. m ≡ empty) }
    {
        let shelf = Rc::new(alloc, Shelf::new(alloc)?)?;
        Ok(NameMap {
            shelves: Rc::new(alloc, vec![in alloc; shelf; SHELVES]?)?,
        })
    }

    /// The value of a name, lent; None exactly where the name has none.
    pub fn get(&self, name: &ControlName) -> Option<&T>
        ensures { option_copied result ≡ get self.now name.now }
    {
        let spot = spot_of(name.number());
        self.shelves[spot.shelf].get(spot.bucket, name)
    }

    /// The name of these letters as the map has it, lent; None exactly where it has no value.
    pub fn find(&self, letters: &[u8]) -> Option<&ControlName>
        ensures { option_copied result ≡ option_map (λ value. letters.now) (get self.now letters.now) }
    {
        let spot = spot_of(mixed(letters));
        self.shelves[spot.shelf].find(spot.bucket, letters)
    }

    /// Gives a name a value, in the place of the one that it has. After want of memory, its only error, the map may only be
    /// dropped.
    pub fn insert(&mut self, name: ControlName, value: T) -> Result<(), AllocError>
        ensures { OnOk result (self.new ≡ insert self.old name value) }
    {
        let spot = spot_of(name.number());
        let own = Rc::make_mut(&mut self.shelves)?;
        insert_in(&mut own[spot.shelf], spot.bucket, name, value)?;
        Ok(())
    }

    /// Takes a name's value away, if it has one. After want of memory, its only error, the map may only be dropped.
    pub fn remove(&mut self, name: &ControlName) -> Result<(), AllocError>
        ensures { OnOk result (self.new ≡ remove self.old name.now) }
    {
        let Some(_value) = self.get(name) else {
            return Ok(());
        };
        let spot = spot_of(name.number());
        let name = name.as_slice();
        let own = Rc::make_mut(&mut self.shelves)?;
        remove_in(&mut own[spot.shelf], spot.bucket, name)?;
        Ok(())
    }

    /// Whether both give the same names the same values.
    pub fn same(&self, other: &NameMap<T>) -> bool
        ensures { IsTrue result ↔ (self.now ≡ other.now) }
    {
        same_parts(self.shelves.as_slice(), other.shelves.as_slice())
    }

    /// A second map, equal to this one, which changes alone from then on. Nothing is copied until then. Its only error is
    /// that no more owners can be counted.
    pub fn share(&self) -> Result<NameMap<T>, AllocError>
        ensures { IfOk result (λ twin. twin ≡ self.now) }
    {
        Ok(NameMap {
            shelves: self.shelves.clone()?,
        })
    }
}

/// Gives a name a value on a shelf that maps may share, in the bucket of this number; only this owner sees it. After want of
/// memory nothing has changed.
fn insert_in<T: Kept>(
    shelf: &mut Rc<Shelf<T>>,
    at: usize,
    name: ControlName,
    value: T,
) -> Result<(), AllocError>
    requires own { at ≡ bucket_of name }
    requires within { at < 32 }
    ensures ok { OnOk result (shelf.new.value ≡ insert shelf.old.value name value) }
    ensures err { OnErr result (shelf.new.value ≡ shelf.old.value) }
{
    let own = Rc::make_mut(shelf)?;
    own.insert(at, name, value)
}

/// Takes a name's value away on a shelf that maps may share, in the bucket of this number; only this owner sees it. After
/// want of memory nothing has changed.
fn remove_in<T: Kept>(shelf: &mut Rc<Shelf<T>>, at: usize, name: &[u8]) -> Result<(), AllocError>
    requires own { at ≡ bucket_of name.now }
    requires within { at < 32 }
    ensures ok { OnOk result (shelf.new.value ≡ remove shelf.old.value name.now) }
    ensures err { OnErr result (shelf.new.value ≡ shelf.old.value) }
{
    let own = Rc::make_mut(shelf)?;
    own.remove(at, name)
}
