//! What is done to the table with its groups (TeX: The Program, sections 277 to 283).
ghost use Rattle.std.specs.Prelude.{◌≡◌, ◌↔◌, ◌≤◌, [], length, Some, Err, IsOk, IsTrue, IfOk, OnOk, OnErr};
ghost use Rattle.tx_eqtb.specs.Initex.{initial_table};
ghost use Rattle.tx_eqtb.specs.Stack.{assigned, assigned_everywhere, closed, kind_of, opened, replaced};

use crate::entry::Entry;
use crate::eqtb::Eqtb;
use crate::error::{CloseError, OpenError};
use crate::groups::GroupKind;
use crate::initex;
use crate::nesting::Nesting;
use crate::parts::Parts;
use std::alloc::{AllocError, Global};
use std::mem;
use tx_list::both;
use tx_prim::Moment;
use tx_seen::Place;

/// How many groups can be open.
const MOST_GROUPS: usize = 255;

impl Eqtb {
    /// The table with which INITEX begins, in a run that began at this moment, and no group. Its only error is want of
    /// memory.
    pub fn new(alloc: Global, begun: &Moment) -> Result<Eqtb, AllocError>
        ensures { IfOk result (λ e. e ≡ record { table = initial_table begun.now; groups = [] }) }
    {
        Ok(Eqtb {
            table: Parts::new(alloc, initex::initial_table(alloc, begun)?)?,
            groups: Nesting::new(alloc),
        })
    }

    /// Gives a place an entry until the innermost group ends; one of another kind than stands there changes nothing. After
    /// want of memory, its only error, the table may only be dropped.
    pub fn assign(&mut self, place: Place, value: Entry) -> Result<(), AllocError>
        ensures ok { OnOk result (self.new ≡ assigned self.old place value) }
    {
        self.table.set(self.groups.depth(), &place, value)
    }

    /// Gives a place an entry in all groups and outside them; one of another kind than stands there changes nothing. After
    /// want of memory, its only error, the table may only be dropped.
    pub fn assign_global(&mut self, place: Place, value: Entry) -> Result<(), AllocError>
        ensures ok { OnOk result (self.new ≡ assigned_everywhere self.old place value) }
    {
        self.groups.assign_outside(0, &place, &value)?;
        self.table.set(0, &place, value)
    }

    /// Gives a box register an entry, or its box a size, where its value was assigned: here, and outside each group that was
    /// opened since, as \box and \wd do (TeX: The Program, sections 1079 and 1247); any other place, as if it were global. One of
    /// another kind than stands there changes nothing. After want of memory, its only error, the table may only be dropped.
    pub fn replace(&mut self, place: Place, value: Entry) -> Result<(), AllocError>
        ensures ok { OnOk result (self.new ≡ replaced self.old place value) }
    {
        let level = self.table.level(&place);
        self.groups.assign_outside(level, &place, &value)?;
        self.table.set(level, &place, value)
    }

    /// Opens a group. `TooMany` comes exactly where 255 are open. After an error nothing has changed.
    pub fn open_group(&mut self, kind: GroupKind) -> Result<(), OpenError>
        ensures full { (result ≡ Err OpenError.TooMany) ↔ (255 ≤ length self.old.groups) }
        ensures ok { OnOk result (self.new ≡ opened self.old kind) }
        ensures err { OnErr result (self.new ≡ self.old) }
    {
        if MOST_GROUPS <= self.groups.depth() {
            return Err(OpenError::TooMany);
        }
        let outside = self.table.share()?;
        self.groups.open(kind, outside)?;
        Ok(())
    }

    /// Closes the innermost group; `NotThatGroup` comes exactly where that isn't of this kind, or none is open, and then
    /// nothing has changed. It takes no memory.
    pub fn close_group(&mut self, kind: GroupKind) -> Result<(), CloseError>
        ensures exact { IsOk result ↔ (kind_of self.old ≡ Some kind) }
        ensures ok { OnOk result (self.new ≡ closed self.old) }
        ensures err { OnErr result (self.new ≡ self.old) }
    {
        if self.groups.kind() != Some(kind) {
            return Err(CloseError::NotThatGroup);
        }
        self.leave_group();
        Ok(())
    }

    /// The table is as it stands outside the innermost group, if one is open, which is left.
    fn leave_group(&mut self)
        ensures { self.new ≡ closed self.old }
    {
        if let Some(outside) = self.groups.close() {
            drop(mem::replace(&mut self.table, outside));
        }
    }

    /// How many groups are open.
    pub fn depth(&self) -> usize
        ensures { result ≡ length self.now.groups }
    {
        self.groups.depth()
    }

    /// The kind of the innermost group; None exactly where none is open.
    pub fn kind(&self) -> Option<GroupKind>
        ensures { result ≡ kind_of self.now }
    {
        self.groups.kind()
    }

    /// Whether both are the same table with the same groups.
    pub fn same(&self, other: &Eqtb) -> bool
        ensures { IsTrue result ↔ (self.now ≡ other.now) }
    {
        self.groups.depth() == other.groups.depth()
            && self.table.same(&other.table)
            && self.groups.same(&other.groups)
    }

    /// A second table with groups, equal to this one, which changes alone from then on. Its only error is want of memory.
    pub fn share(&self) -> Result<Eqtb, AllocError>
        ensures { IfOk result (λ twin. twin ≡ self.now) }
    {
        let (table, groups) = both(self.table.share(), self.groups.share())?;
        Ok(Eqtb { table, groups })
    }
}
