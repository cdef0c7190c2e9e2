//! A shelf: buckets of names, of which each name has its own.
ghost use Rattle.std.specs.Prelude.{◌≡◌, ◌↔◌, ◌<◌, IsTrue, IfOk, OnOk, OnErr};
ghost use Rattle.std.specs.Option.{option_copied, option_map};
ghost use Rattle.std.specs.FinMap.{empty, get, insert, remove};
ghost use Rattle.tx_name.specs.Buckets.{bucket_of};

use crate::bucket::Bucket;
use crate::parts::{BUCKETS, same_parts};
use std::alloc::{AllocError, Global};
use std::marker::Model;
use std::rc::Rc;
use tx_char::ControlName;
use tx_list::Kept;

/// Names with their values, in 32 buckets. Contracts see the finite map. Clones share the buckets, each until one of them
/// changes it.
#[derive(Drop)]
pub struct Shelf<T> {
    buckets: Vec<Rc<Bucket<T>>>,
}

impl<T> Model for Shelf<T> {
    ghost use Rattle.std.specs.Prelude.{ℕ};
    ghost use Rattle.std.specs.Coded.{coded_ℕ, coded_list};
    ghost use Rattle.std.specs.FinMap as map;
    ghost use Rattle.tx_name.specs.Names.{Names};

    ghost Value = { Names T };

    ghost coded = { map.code (coded_list coded_ℕ) T.code };

    ghost use Rattle.tx_name.specs.Buckets.{IsPlaced, bucket_of, held, together};

    ghost view = { λ s. together (held s.buckets.items) };

    ghost invariant = { λ s. IsPlaced bucket_of (held s.buckets.items) };
}

impl<T: Kept> Shelf<T> {
    /// The shelf with no names. Its only error is want of memory.
    pub fn new(alloc: Global) -> Result<Shelf<T>, AllocError>
        ensures { IfOk result (λ s. s ≡ empty) }
    {
        let bucket = Rc::new(alloc, Bucket::new(alloc))?;
        Ok(Shelf {
            buckets: vec![in alloc; bucket; BUCKETS]?,
        })
    }

    /// The value of a name, lent, which is sought in the bucket of this number; None exactly where the name has none.
    pub fn get(&self, at: usize, name: &ControlName) -> Option<&T>
        requires own { at ≡ bucket_of name.now }
        requires within { at < 32 }
        ensures { option_copied result ≡ get self.now name.now }
    {
        self.buckets[at].get(name)
    }

    /// The name of these letters as it stands in the bucket of this number, lent; None exactly where it has no value.
    pub fn find(&self, at: usize, letters: &[u8]) -> Option<&ControlName>
        requires own { at ≡ bucket_of letters.now }
        requires within { at < 32 }
        ensures { option_copied result ≡ option_map (λ value. letters.now) (get self.now letters.now) }
    {
        self.buckets[at].find(letters)
    }

    /// Gives a name a value, in the place of the one that it has, in the bucket of this number. After want of memory nothing
    /// has changed.
    pub fn insert(&mut self, at: usize, name: ControlName, value: T) -> Result<(), AllocError>
        requires own { at ≡ bucket_of name }
        requires within { at < 32 }
        ensures ok { OnOk result (self.new ≡ insert self.old name value) }
        ensures err { OnErr result (self.new ≡ self.old) }
    {
        insert_in(&mut self.buckets[at], name, value)?;
        Ok(())
    }

    /// Takes a name's value away, if it has one, in the bucket of this number. After want of memory nothing has changed.
    pub fn remove(&mut self, at: usize, name: &[u8]) -> Result<(), AllocError>
        requires own { at ≡ bucket_of name.now }
        requires within { at < 32 }
        ensures ok { OnOk result (self.new ≡ remove self.old name.now) }
        ensures err { OnErr result (self.new ≡ self.old) }
    {
        remove_in(&mut self.buckets[at], name)?;
        Ok(())
    }
}

impl<T: Kept> Kept for Shelf<T> {
    fn share(&self) -> Result<Self, AllocError> {
        Ok(Shelf {
            buckets: self.buckets.clone()?,
        })
    }

    fn same(&self, other: &Self) -> bool {
        same_parts(self.buckets.as_slice(), other.buckets.as_slice())
    }
}

/// A clone is the same map. Its only error is want of memory.
impl<T: Kept> Clone for Shelf<T> {
    ghost is_clone = { λ source copy. copy ≡ source };

    fn clone(&self) -> Result<Self, AllocError> {
        self.share()
    }
}

/// Gives a name a value in a bucket that shelves may share; only this owner sees it. After want of memory nothing has
/// changed.
fn insert_in<T: Kept>(
    bucket: &mut Rc<Bucket<T>>,
    name: ControlName,
    value: T,
) -> Result<(), AllocError>
    ensures ok { OnOk result (bucket.new.value ≡ insert bucket.old.value name value) }
    ensures err { OnErr result (bucket.new.value ≡ bucket.old.value) }
{
    let own = Rc::make_mut(bucket)?;
    own.insert(name, value)
}

/// Takes a name's value away in a bucket that shelves may share; only this owner sees it. After want of memory nothing has
/// changed.
fn remove_in<T: Kept>(bucket: &mut Rc<Bucket<T>>, name: &[u8]) -> Result<(), AllocError>
    ensures ok { OnOk result (bucket.new.value ≡ remove bucket.old.value name.now) }
    ensures err { OnErr result (bucket.new.value ≡ bucket.old.value) }
{
    let own = Rc::make_mut(bucket)?;
    own.remove(name);
    Ok(())
}
