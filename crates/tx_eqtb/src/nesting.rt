//! The groups that are open, one in another (TeX: The Program, sections 273 to 283).
ghost use Rattle.std.specs.Prelude.{◌≡◌, ◌↔◌, ◌≤◌, ◌-◌, [], ◌∷◌, ◌++◌, length, take, map, IsTrue, IfOk, OnOk, OnErr};
ghost use Rattle.std.specs.Option.{option_map};
ghost use Rattle.tx_eqtb.specs.Stack.{assigned_outside, assigned_within, innermost};

use crate::entry::Entry;
use crate::groups::{Group, GroupKind};
use crate::parts::Parts;
use std::alloc::{AllocError, Global};
use std::marker::Model;
use tx_list::{Items, same_items};
use tx_seen::Place;

/// The open groups, innermost last. Contracts see their list.
#[derive(Drop)]
pub struct Nesting {
    groups: Vec<Group>,
}

impl Model for Nesting {
    ghost use Rattle.std.specs.Prelude.{List};
    ghost use Rattle.tx_eqtb.specs.declared.groups.Group.{Group};
    ghost use Rattle.std.specs.Coded.{coded_list};
    ghost use Rattle.tx_eqtb.specs.contracts.groups.Group as group;

    ghost Value = { List Group };

    ghost coded = { coded_list group.the_row.coded };

    ghost view = { λ n. n.groups.items };
}

impl Nesting {
    /// No group; takes no memory.
    pub fn new(alloc: Global) -> Nesting
        ensures { result ≡ [] }
    {
        Nesting {
            groups: Vec::new(alloc),
        }
    }

    /// How many groups are open.
    pub fn depth(&self) -> usize
        ensures { result ≡ length self.now }
    {
        self.groups.len()
    }

    /// The kind of the innermost group; None exactly where none is open.
    pub fn kind(&self) -> Option<GroupKind>
        ensures { result ≡ option_map (λ group. group.kind) (innermost self.now) }
    {
        match self.groups.last() {
            Some(group) => Some(group.kind),
            None => None,
        }
    }

    /// Opens a group, with the table outside it. After want of memory nothing has changed.
    pub fn open(&mut self, kind: GroupKind, outside: Parts) -> Result<(), AllocError>
        ensures ok { OnOk result (self.new ≡ self.old ++ record { kind = kind; outside = outside } ∷ []) }
        ensures err { OnErr result (self.new ≡ self.old) }
    {
        self.groups.push(Group { kind, outside })?;
        Ok(())
    }

    /// Closes the innermost group and answers the table outside it; None exactly where none is open. It takes no memory.
    pub fn close(&mut self) -> Option<Parts>
        ensures outside { result ≡ option_map (λ group. group.outside) (innermost self.old) }
        ensures left { self.new ≡ take (length self.old - 1) self.old }
    {
        match self.groups.pop() {
            Some(Group { kind: _, outside }) => Some(outside),
            None => None,
        }
    }

    /// Gives a place an entry outside each group but the outermost ones, so many, as if no more than these were open. After want
    /// of memory, its only error, the groups may only be dropped.
    #[tactic(auto, using(crate::proofs::Within::none_within))]
    pub fn assign_outside(
        &mut self,
        level: usize,
        place: &Place,
        value: &Entry,
    ) -> Result<(), AllocError>
        ensures { OnOk result (self.new ≡ assigned_within level place.now value.now self.old) }
    {
        if self.groups.len() <= level {
            return Ok(());
        }
        assign_from(self.groups.as_mut_slice(), level, place, value)
    }

    /// Whether both are the same groups.
    pub fn same(&self, other: &Nesting) -> bool
        ensures { IsTrue result ↔ (self.now ≡ other.now) }
    {
        same_items(self.groups.as_slice(), other.groups.as_slice())
    }

    /// A second list, equal to this one. Its only error is want of memory.
    pub fn share(&self) -> Result<Nesting, AllocError>
        ensures { IfOk result (λ twin. twin ≡ self.now) }
    {
        let alloc = *self.groups.allocator();
        Ok(Nesting {
            groups: Items::from_slice(alloc, self.groups.as_slice())?.into_vec(),
        })
    }
}

/// Gives a place an entry outside each of these groups but the first ones, so many.
fn assign_from(
    groups: &mut [Group],
    level: usize,
    place: &Place,
    value: &Entry,
) -> Result<(), AllocError>
    requires { level ≤ length groups.old }
    ensures { OnOk result (groups.new ≡ assigned_within level place.now value.now groups.old) }
{
    assign_each(&mut groups[level..], level, place, value)
}

/// Gives a place an entry outside each of these groups, as if so many groups were open.
fn assign_each(
    groups: &mut [Group],
    level: usize,
    place: &Place,
    value: &Entry,
) -> Result<(), AllocError>
    ensures { OnOk result (groups.new ≡ map (assigned_outside level place.now value.now) groups.old) }
{
    for k in 0..groups.len() {
        let entry = value.clone()?;
        groups[k].outside.set(level, place, entry)?;
    }
    Ok(())
}
