//! What a command has taken.
ghost use Rattle.std.specs.Prelude.{◌≡◌, ◌↔◌, ◌∷◌, ◌++◌, [], IsTrue, OnOk, OnErr};
ghost use Rattle.tx_pending.specs.Elements.{given_back};
ghost use Rattle.tx_seen.specs.Readings.{last};
ghost use Rattle.tx_scan.specs.Grammars.{equals};
ghost use Rattle.tx_scan.specs.Settled.{tokens_of};
ghost use Rattle.tx_command.specs.Commands.{is_named_next};

use crate::naming::{NamePart, behind};
use std::alloc::{AllocError, Global};
use std::marker::Model;
use tx_list::Items;
use tx_pending::Pending;
use tx_scan::give_back;
use tx_seen::Item;

/// The tokens and values that a command has taken. Contracts see the list of them. Where they stand behind \font and the name that
/// it defines, what comes next of a file's name is kept, so that no item is looked at twice.
#[derive(Drop)]
pub struct TakenItems {
    items: Items<Item>,
    part: NamePart,
}

impl Model for TakenItems {
    ghost use Rattle.std.specs.Prelude.{◌≡◌, List};
    ghost use Rattle.std.specs.Coded.{coded_list};
    ghost use Rattle.tx_seen.specs.contracts.item.Item as an_item;
    ghost use Rattle.tx_seen.specs.declared.item.Item.{Item};
    ghost use Rattle.tx_command.specs.Naming.{part_behind};

    ghost Value = { List Item };

    ghost coded = { coded_list an_item.the_row.coded };

    ghost view = { λ t. t.items };

    ghost invariant = { λ t. t.part ≡ part_behind t.items };
}

impl TakenItems {
    /// No items; takes no memory.
    pub(crate) fn new(alloc: Global) -> TakenItems
        ensures { result ≡ [] }
    {
        TakenItems {
            items: Items::new(alloc),
            part: NamePart::Equals,
        }
    }

    /// The items, lent.
    pub(crate) fn as_slice(&self) -> &[Item]
        ensures { result.now ≡ self.now }
    {
        self.items.as_slice()
    }

    /// Whether there is none.
    pub(crate) fn is_empty(&self) -> bool
        ensures { IsTrue result ↔ (self.now ≡ []) }
    {
        self.items.is_empty()
    }

    /// Whether the name of a file is being read, where they stand behind \font and the name that it defines.
    pub(crate) fn is_naming(&self) -> bool
        ensures { result ≡ is_named_next (equals self.now) }
    {
        self.part.is_name()
    }

    /// Puts an item behind the others. After want of memory nothing has changed.
    #[inline(always)]
    #[tactic(auto, using(crate::proofs::NameParts::part_more))]
    pub fn push(&mut self, item: Item) -> Result<(), AllocError>
        ensures ok { OnOk result (self.new ≡ self.old ++ item ∷ []) }
        ensures err { OnErr result (self.new ≡ self.old) }
    {
        let part = behind(self.part, &item);
        self.items.push(item)?;
        self.part = part;
        Ok(())
    }

    /// Keeps none, in the memory that the list has.
    pub(crate) fn clear(&mut self)
        ensures { self.new ≡ [] }
    {
        self.items.clear();
        self.part = NamePart::Equals;
    }

    /// Puts the last tokens, so many of them, at the front of the input, in their order, and keeps no item. Its only error is want
    /// of memory.
    #[inline(never)]
    pub(crate) fn put_back(&mut self, input: &mut Pending, back: usize) -> Result<(), AllocError>
        ensures given { OnOk result (input.new ≡ given_back input.old (tokens_of (last back self.old))) }
        ensures left { self.new ≡ [] }
    {
        let given = give_back(&mut self.items, input, back);
        self.items.clear();
        self.part = NamePart::Equals;
        given
    }

    /// Whether both have the same items.
    pub(crate) fn same(&self, other: &TakenItems) -> bool
        ensures { IsTrue result ↔ (self.now ≡ other.now) }
    {
        self.items.same(&other.items)
    }
}

/// A clone has the same items. Its only error is want of memory.
impl Clone for TakenItems {
    ghost is_clone = { λ source copy. copy ≡ source };

    fn clone(&self) -> Result<Self, AllocError> {
        Ok(TakenItems {
            items: self.items.clone()?,
            part: self.part,
        })
    }
}
