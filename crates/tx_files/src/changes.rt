//! Lists of changes, which are made as a whole or not at all.
ghost use Rattle.std.specs.Prelude.{◌≡◌, ◌∷◌, [], ◌+◌, ◌<◌, ◌^◌, length, IfSome, IfOk, OnOk, OnErr};
ghost use Rattle.std.specs.FinMap.{remove};
ghost use Rattle.tx_files.specs.Changes as spec;
ghost use Rattle.tx_files.specs.Edits.{edited, length_of};
ghost use Rattle.tx_files.specs.TakenBack.{CanTakeBack, taken_back};
ghost use Rattle.tx_files.specs.declared.edit.Change.TheVariants as change;

use crate::before::Before;
use crate::edit::{BatchRefusal, Change, Edit, Refusal};
use crate::file_set::FileSet;
use crate::name::Name;
use std::mem;

impl Change {
    /// The name of the file that is changed.
    pub fn name(&self) -> &Name
        ensures { result.now ≡ spec.name_of self.now }
    {
        match self {
            Change::Edit(e) => &e.name,
            Change::Remove(name) => name,
        }
    }
}

/// Why the change of this number wasn't made.
fn numbered(refusal: Refusal, index: u64) -> BatchRefusal
    ensures { result ≡ spec.numbered index refusal }
{
    match refusal {
        Refusal::Outside { len } => BatchRefusal::Outside { index, len },
        Refusal::OutOfMemory => BatchRefusal::OutOfMemory,
    }
}

/// The edit of a list that holds nothing else.
fn only_edit(changes: &[Change]) -> Option<&Edit>
    ensures { IfSome result (λ e. changes.now ≡ change.Edit e.now ∷ []) }
{
    match changes {
        [Change::Edit(e)] => Some(e),
        _ => None,
    }
}

impl FileSet {
    /// How long the file of an edit is, where the edit goes past its end; an absent file has no byte. It takes no memory.
    pub fn outside(&self, e: &Edit) -> Option<u64>
        ensures { spec.IsOutside self.now e.now result }
    {
        let len = self.bytes_of(e.name.as_slice()).len() as u64;
        if len < e.place || len - e.place < e.removed {
            return Some(len);
        }
        None
    }

    /// Takes the file of this name away; takes no memory.
    fn take_away(&mut self, name: &Name)
        ensures gone { self.new ≡ remove self.old name.now }
        ensures small { length_of self.new name.now < 2 ^ 64 }
    {
        let _gone = self.remove(name.as_slice());
        let _size = self.bytes_of(name.as_slice()).len();
    }

    /// Makes the edit that is the change of this number.
    fn make_edit(&mut self, e: &Edit, index: u64) -> Result<(), BatchRefusal>
        ensures answer { spec.IsAnswerToOne self.old (change.Edit e.now) index result }
        ensures ok { OnOk result (self.new ≡ edited self.old e.now) }
        ensures small { OnOk result (length_of self.new e.now.name < 2 ^ 64) }
    {
        match self.apply(e) {
            Ok(()) => {
                let _size = self.bytes_of(e.name.as_slice()).len();
                Ok(())
            }
            Err(refusal) => Err(numbered(refusal, index)),
        }
    }

    /// Makes the change of this number.
    fn make_one(&mut self, change: &Change, index: u64) -> Result<(), BatchRefusal>
        ensures answer { spec.IsAnswerToOne self.old change.now index result }
        ensures ok { OnOk result (self.new ≡ spec.changed self.old change.now) }
        ensures small { OnOk result (length_of self.new (spec.name_of change.now) < 2 ^ 64) }
    {
        match change {
            Change::Edit(e) => self.make_edit(e, index),
            Change::Remove(name) => {
                self.take_away(name);
                Ok(())
            }
        }
    }

    /// Makes changes, one after the other. After a refusal those before it are made.
    fn make_all(&mut self, changes: &[Change]) -> Result<(), BatchRefusal>
        ensures answer { spec.IsAnswerToAll self.old changes.now result }
        ensures ok { OnOk result (self.new ≡ spec.all_changed self.old changes.now) }
        ensures small { OnOk result (spec.AreSmall self.old changes.now) }
    {
        for at in 0..changes.len() {
            match self.make_one(&changes[at], at as u64 + 1) {
                Ok(()) => {}
                Err(refusal) => return Err(refusal),
            }
        }
        Ok(())
    }

    /// Makes a list that is one edit, as `change` does; where it doesn't fit, that is answered before memory is asked for.
    fn change_one(&mut self, e: &Edit) -> Result<Before, BatchRefusal>
        ensures answer { spec.IsAnswerToAll self.old (change.Edit e.now ∷ []) result }
        ensures ok { OnOk result (self.new ≡ edited self.old e.now) }
        ensures err { OnErr result (self.new ≡ self.old) }
        ensures small { OnOk result (length_of self.new e.now.name < 2 ^ 64) }
        ensures can { IfOk result (CanTakeBack self.new) }
        ensures back { IfOk result (λ before. taken_back self.new before ≡ self.old) }
    {
        let outside = self.outside(e);
        if let Some(len) = outside {
            return Err(BatchRefusal::Outside { index: 1, len });
        }
        let name = e.name.clone()?;
        match self.change(e) {
            Ok(undo) => {
                let _size = self.bytes_of(e.name.as_slice()).len();
                Ok(Before::One { name, undo })
            }
            Err(refusal) => Err(numbered(refusal, 1)),
        }
    }

    /// Makes a list in a copy of all files, which then takes their place.
    fn change_beside(&mut self, changes: &[Change]) -> Result<Before, BatchRefusal>
        ensures answer { spec.IsAnswerToAll self.old changes.now result }
        ensures ok { OnOk result (self.new ≡ spec.all_changed self.old changes.now) }
        ensures err { OnErr result (self.new ≡ self.old) }
        ensures small { OnOk result (spec.AreSmall self.old changes.now) }
        ensures can { IfOk result (CanTakeBack self.new) }
        ensures back { IfOk result (λ before. taken_back self.new before ≡ self.old) }
    {
        let mut next = self.copied()?;
        match next.make_all(changes) {
            Ok(()) => Ok(Before::All(mem::replace(self, next))),
            Err(refusal) => Err(refusal),
        }
    }

    /// Makes a list of changes, each place counted in its file as the changes before it leave it, and answers how the list is
    /// taken back. One edit alone is made as `change` makes it; else the files are copied. After a refusal nothing has changed.
    pub fn change_all(&mut self, changes: &[Change]) -> Result<Before, BatchRefusal>
        ensures answer { spec.IsAnswerToAll self.old changes.now result }
        ensures ok { OnOk result (self.new ≡ spec.all_changed self.old changes.now) }
        ensures err { OnErr result (self.new ≡ self.old) }

        // Each file that was changed on the way was held in memory.
        ensures small { OnOk result (spec.AreSmall self.old changes.now) }

        // What `take_back` needs and makes of it.
        ensures can { IfOk result (CanTakeBack self.new) }
        ensures back { IfOk result (λ before. taken_back self.new before ≡ self.old) }
    {
        match only_edit(changes) {
            Some(e) => self.change_one(e),
            None => self.change_beside(changes),
        }
    }

    /// Takes a list of changes back, by what `change_all` answered; takes no memory.
    pub fn take_back(&mut self, before: Before)
        requires { CanTakeBack self.old before }
        ensures { self.new ≡ taken_back self.old before }
    {
        match before {
            Before::One { name, undo } => self.restore(&name, undo),
            Before::All(files) => *self = files,
        }
    }

    /// Makes a list of changes, each place counted in its file as the changes before it leave it. After a refusal nothing has
    /// changed.
    pub fn apply_all(&mut self, changes: &[Change]) -> Result<(), BatchRefusal>
        ensures answer { spec.IsAnswerToAll self.old changes.now result }
        ensures ok { OnOk result (self.new ≡ spec.all_changed self.old changes.now) }
        ensures err { OnErr result (self.new ≡ self.old) }
    {
        let _before = self.change_all(changes)?;
        Ok(())
    }
}
