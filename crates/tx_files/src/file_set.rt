//! Files by their names.
ghost use Rattle.std.specs.Prelude.{◌≡◌, ◌+◌, ◌≤◌, length, take, drop, IsSome, IfOk, OnOk, OnErr};
ghost use Rattle.std.specs.Option.{option_copied};
ghost use Rattle.std.specs.FinMap.{empty, insert, remove};
ghost use Rattle.tx_bytes.specs.Files.{content};
ghost use Rattle.tx_files.specs.Edits as spec;

use crate::edit::{Edit, Refusal, Undo};
use crate::name::Name;
use indexmap::IndexMap;
use std::alloc::{AllocError, Global};
use std::marker::Model;
use std::mem;
use tx_bytes::Bytes;

/// Bytes with so many of them at a place replaced by others. Its only error is want of memory.
fn spliced(
    alloc: Global,
    bytes: &[u8],
    place: usize,
    removed: usize,
    put: &[u8],
) -> Result<Bytes, AllocError>
    requires { place + removed ≤ length bytes.now }
    ensures { IfOk result (λ all. all ≡ spec.spliced bytes.now place removed put.now) }
{
    let before = &bytes[..place];
    let behind = &bytes[place + removed..];
    let mut all = Vec::with_capacity(alloc, before.len() + behind.len() + put.len())?;
    all.extend_from_slice(before)?;
    all.extend_from_slice(put)?;
    all.extend_from_slice(behind)?;
    Ok(Bytes::from_vec(all))
}

/// Exchanges bytes from a place on for as many others, where they lie, and answers those that stood there; takes no memory.
fn exchange(alloc: Global, held: &mut Bytes, place: usize, bytes: Bytes) -> Bytes
    requires { place + length bytes ≤ length held.old }
    ensures new { held.new ≡ spec.spliced held.old place (length bytes) bytes }
    ensures before { result ≡ take (length bytes) (drop place held.old) }
{
    let mut all = mem::replace(held, Bytes::new(alloc)).into_vec();
    let mut other = bytes.into_vec();
    let end = place + other.len();
    all[place..end].swap_with_slice(other.as_mut_slice());
    *held = Bytes::from_vec(all);
    Bytes::from_vec(other)
}

/// A set of files in memory, by their names. Contracts see the finite map from names to contents.
#[derive(Drop)]
pub struct FileSet {
    files: IndexMap<Vec<u8>, Bytes>,
}

impl Model for FileSet {
    ghost use Rattle.std.specs.Coded.{coded_ℕ, coded_list};
    ghost use Rattle.std.specs.FinMap as map;
    ghost use Rattle.tx_bytes.specs.Files.{Files};
    ghost use Rattle.tx_files.specs.Entries.{files_of};

    ghost Value = { Files };

    ghost coded = { map.code (coded_list coded_ℕ) (coded_list coded_ℕ) };

    ghost view = { λ f. files_of f.files.entries };
}

impl FileSet {
    /// No file at all; takes no memory.
    pub fn new(alloc: Global) -> FileSet
        ensures { result ≡ empty }
    {
        FileSet {
            files: IndexMap::new(alloc),
        }
    }

    /// What the file of this name holds, lent; None exactly where there is no such file.
    pub fn get(&self, name: &[u8]) -> Option<&Bytes>
        ensures { option_copied result ≡ content self.now name.now }
    {
        self.files.get(name)
    }

    /// The bytes of the file of this name, lent; none where there is no such file.
    pub fn bytes_of(&self, name: &[u8]) -> &[u8]
        ensures { result.now ≡ spec.bytes_of self.now name.now }
    {
        match self.get(name) {
            Some(bytes) => bytes.as_slice(),
            None => &[],
        }
    }

    /// Gives the name this content, and answers what it had before.
    fn insert(&mut self, name: Name, bytes: Bytes) -> Result<Option<Bytes>, AllocError>
        ensures before { IfOk result (λ before. before ≡ content self.old name) }
        ensures ok { OnOk result (self.new ≡ insert self.old name bytes) }
        ensures err { OnErr result (self.new ≡ self.old) }
    {
        let before = self.files.insert(name.into_bytes().into_vec(), bytes)?;
        Ok(before)
    }

    /// Gives the name this content, in place of what it had. After want of memory nothing has changed.
    pub fn put(&mut self, name: Name, bytes: Bytes) -> Result<(), AllocError>
        ensures ok { OnOk result (self.new ≡ insert self.old name bytes) }
        ensures err { OnErr result (self.new ≡ self.old) }
    {
        let _before = self.insert(name, bytes)?;
        Ok(())
    }

    /// Makes an edit. After a refusal nothing has changed.
    pub fn apply(&mut self, e: &Edit) -> Result<(), Refusal>
        ensures answer { spec.IsAnswerTo self.old e.now result }
        ensures ok { OnOk result (self.new ≡ spec.edited self.old e.now) }
        ensures err { OnErr result (self.new ≡ self.old) }
    {
        let _undo = self.change(e)?;
        Ok(())
    }

    /// Exchanges bytes of the file of this name, as `exchange` does.
    fn exchange_in(&mut self, name: &[u8], place: usize, bytes: Bytes) -> Bytes
        requires there { IsSome (content self.old name.now) }
        requires within { place + length bytes ≤ spec.length_of self.old name.now }
        ensures new { self.new ≡ spec.put_back self.old name.now place bytes }
        ensures before { result ≡ take (length bytes) (drop place (spec.bytes_of self.old name.now)) }
    {
        let alloc = *self.files.allocator();
        match self.files.get_mut(name) {
            Some(held) => exchange(alloc, held, place, bytes),
            None => unreachable!(),
        }
    }

    /// Makes an edit, and answers how it is taken back. Where it puts in as many bytes as it takes out, only these are
    /// copied; else the one file's bytes are. After a refusal nothing has changed.
    pub fn change(&mut self, e: &Edit) -> Result<Undo, Refusal>
        ensures answer { spec.IsAnswerTo self.old e.now result }
        ensures ok { OnOk result (self.new ≡ spec.edited self.old e.now) }
        ensures err { OnErr result (self.new ≡ self.old) }

        // What `restore` needs and makes of it.
        ensures can { IfOk result (spec.CanRestore self.new e.now.name) }
        ensures back { IfOk result (λ undo. spec.restored self.new e.now.name undo ≡ self.old) }
    {
        let name = e.name.as_slice();
        let len = self.bytes_of(name).len() as u64;
        if len < e.place || len - e.place < e.removed {
            return Err(Refusal::Outside { len });
        }
        if e.removed == e.put.len() as u64 && self.get(name).is_some() {
            let bytes = self.exchange_in(name, e.place as usize, e.put.clone()?);
            return Ok(Undo::Part {
                place: e.place as usize,
                bytes,
            });
        }
        self.change_anew(e)
    }

    /// Makes an edit that fits, as `change` does, in a copy of its file.
    fn change_anew(&mut self, e: &Edit) -> Result<Undo, Refusal>
        requires { e.now.place + e.now.removed ≤ spec.length_of self.old e.now.name }
        ensures answer { spec.IsAnswerTo self.old e.now result }
        ensures ok { OnOk result (self.new ≡ spec.edited self.old e.now) }
        ensures err { OnErr result (self.new ≡ self.old) }
        ensures can { IfOk result (spec.CanRestore self.new e.now.name) }
        ensures back { IfOk result (λ undo. spec.restored self.new e.now.name undo ≡ self.old) }
    {
        let all = spliced(
            *self.files.allocator(),
            self.bytes_of(e.name.as_slice()),
            e.place as usize,
            e.removed as usize,
            e.put.as_slice(),
        )?;
        match self.insert(e.name.clone()?, all)? {
            None => Ok(Undo::Absent),
            Some(before) => Ok(Undo::Whole(before)),
        }
    }

    /// A copy of all files. Its only error is want of memory.
    pub(crate) fn copied(&self) -> Result<FileSet, AllocError>
        ensures { IfOk result (λ copy. copy ≡ self.now) }
    {
        Ok(FileSet {
            files: self.files.clone()?,
        })
    }

    /// Takes the file of this name away, and answers what it held; takes no memory.
    pub(crate) fn remove(&mut self, name: &[u8]) -> Option<Bytes>
        ensures { self.new ≡ remove self.old name.now }
    {
        self.files.swap_remove(name)
    }

    /// Gives the file of this name, which is there, this content; takes no memory.
    fn replace(&mut self, name: &[u8], bytes: Bytes)
        requires { IsSome (content self.old name.now) }
        ensures { self.new ≡ insert self.old name.now bytes }
    {
        match self.files.get_mut(name) {
            Some(held) => *held = bytes,
            None => unreachable!(),
        }
    }

    /// Takes a change back, by what `change` answered; takes no memory.
    pub fn restore(&mut self, name: &Name, undo: Undo)
        requires { spec.CanRestore self.old name.now undo }
        ensures { self.new ≡ spec.restored self.old name.now undo }
    {
        match undo {
            Undo::Absent => {
                let _made = self.remove(name.as_slice());
            }
            Undo::Whole(bytes) => self.replace(name.as_slice(), bytes),
            Undo::Part { place, bytes } => {
                let _put = self.exchange_in(name.as_slice(), place, bytes);
            }
        }
    }
}
