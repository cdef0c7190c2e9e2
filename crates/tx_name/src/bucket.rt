//! One bucket: names in their order, each with its value.
ghost use Rattle.std.specs.Prelude.{◌≡◌, ◌↔◌, IsTrue, IfOk, IfErr, OnOk, OnErr};
ghost use Rattle.std.specs.Option.{option_copied, option_map};
ghost use Rattle.std.specs.Ordering.{nat_cmp};
ghost use Rattle.std.specs.Cmp.Lexicographic.{slice_cmp};
ghost use Rattle.std.specs.FinMap.{empty, get, insert, remove};
ghost use Rattle.std.specs.FinMap.Entries.{find};
ghost use Rattle.tx_name.specs.Buckets.{IsRising, IsAt, IsGap};

use std::alloc::{AllocError, Global};
use std::cmp::Ordering;
use std::marker::Model;
use tx_char::ControlName;
use tx_list::Kept;

/// Names that rise, with their values. Contracts see the finite map.
#[derive(Drop)]
pub struct Bucket<T> {
    entries: Vec<(ControlName, T)>,
}

impl<T> Model for Bucket<T> {
    ghost use Rattle.std.specs.Prelude.{ℕ};
    ghost use Rattle.std.specs.Coded.{coded_ℕ, coded_list};
    ghost use Rattle.std.specs.FinMap as map;
    ghost use Rattle.tx_name.specs.Names.{Names};

    ghost Value = { Names T };

    ghost coded = { map.code (coded_list coded_ℕ) T.code };

    ghost use Rattle.tx_name.specs.Buckets.{IsRising, map_of};

    ghost view = { λ b. map_of b.entries.items };

    ghost invariant = { λ b. IsRising b.entries.items };
}

impl<T: Kept> Bucket<T> {
    /// The empty bucket, which takes no memory.
    pub fn new(alloc: Global) -> Bucket<T>
        ensures { result ≡ empty }
    {
        Bucket {
            entries: Vec::new(alloc),
        }
    }

    /// The value of a name, lent; None exactly where the name has none.
    pub fn get(&self, name: &ControlName) -> Option<&T>
        ensures { option_copied result ≡ get self.now name.now }
    {
        value_of(self.entries.as_slice(), name)
    }

    /// The name of these letters as it stands here, lent; None exactly where it has no value.
    pub fn find(&self, letters: &[u8]) -> Option<&ControlName>
        ensures { option_copied result ≡ option_map (λ value. letters.now) (get self.now letters.now) }
    {
        name_of(self.entries.as_slice(), letters)
    }

    /// Gives a name a value, in the place of the one that it has. After want of memory nothing has changed.
    pub fn insert(&mut self, name: ControlName, value: T) -> Result<(), AllocError>
        ensures ok { OnOk result (self.new ≡ insert self.old name value) }
        ensures err { OnErr result (self.new ≡ self.old) }
    {
        match search(self.entries.as_slice(), name.as_slice()) {
            Ok(place) => {
                drop(name);
                self.entries[place].1 = value;
                Ok(())
            }
            Err(place) => Ok(self.entries.insert(place, (name, value))?),
        }
    }

    /// Takes a name's value away, if it has one; takes no memory.
    pub fn remove(&mut self, name: &[u8])
        ensures { self.new ≡ remove self.old name.now }
    {
        if let Ok(place) = search(self.entries.as_slice(), name) {
            let _taken = self.entries.remove(place);
        }
    }
}

impl<T: Kept> Kept for Bucket<T> {
    fn share(&self) -> Result<Self, AllocError> {
        let alloc = *self.entries.allocator();
        Ok(Bucket {
            entries: share_entries(alloc, self.entries.as_slice())?,
        })
    }

    fn same(&self, other: &Self) -> bool {
        same_entries(self.entries.as_slice(), other.entries.as_slice())
    }
}

/// A clone is the same map. Its only error is want of memory.
impl<T: Kept> Clone for Bucket<T> {
    ghost is_clone = { λ source copy. copy ≡ source };

    fn clone(&self) -> Result<Self, AllocError> {
        self.share()
    }
}

/// The value of the first entry with this name, lent. A bucket holds few entries, so that this is quicker than a search.
fn value_of<'a, T>(entries: &'a [(ControlName, T)], name: &ControlName) -> Option<&'a T>
    ensures { option_copied result ≡ find (slice_cmp nat_cmp) name.now entries.now }
{
    for entry in entries {
        if entry.0.same(name) {
            return Some(&entry.1);
        }
    }
    None
}

/// Whether a name has these letters.
fn has_letters(name: &ControlName, letters: &[u8]) -> bool
    ensures { IsTrue result ↔ (name.now ≡ letters.now) }
{
    name.as_slice() == letters
}

/// The name of the first entry with these letters, lent.
fn name_of<'a, T>(entries: &'a [(ControlName, T)], letters: &[u8]) -> Option<&'a ControlName>
    ensures { option_copied result ≡ option_map (λ value. letters.now) (find (slice_cmp nat_cmp) letters.now entries.now) }
{
    for entry in entries {
        if has_letters(&entry.0, letters) {
            return Some(&entry.0);
        }
    }
    None
}

/// Where a name stands among entries whose names rise, or else where it would go.
fn search<T>(entries: &[(ControlName, T)], name: &[u8]) -> Result<usize, usize>
    requires { IsRising entries.now }
    ensures found { IfOk result (λ place. IsAt entries.now name.now place) }
    ensures absent { IfErr result (λ place. IsGap entries.now name.now place) }
{
    entries.binary_search_by(
        |entry: &(ControlName, T)| -> Ordering
            ensures { result ≡ slice_cmp nat_cmp entry.now.0 name.entry.now }
        { entry.0.as_slice().cmp(name) },
    )
}

/// Whether both lists have the same names with the same values in the same order.
fn same_entries<T: Kept>(some: &[(ControlName, T)], others: &[(ControlName, T)]) -> bool
    ensures { IsTrue result ↔ (some.now ≡ others.now) }
{
    if some.len() != others.len() {
        return false;
    }
    for k in 0..some.len() {
        if !some[k].0.same(&others[k].0) || !some[k].1.same(&others[k].1) {
            return false;
        }
    }
    true
}

/// Second entries, equal to these.
fn share_entries<T: Kept>(
    alloc: Global,
    entries: &[(ControlName, T)],
) -> Result<Vec<(ControlName, T)>, AllocError>
    ensures { IfOk result (λ twins. twins.items ≡ entries.now) }
{
    let mut twins = Vec::with_capacity(alloc, entries.len())?;
    for entry in entries {
        twins.push((entry.0.clone()?, entry.1.share()?))?;
    }
    Ok(twins)
}
