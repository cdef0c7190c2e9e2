//! An expansion that reads tokens which are expanded.
ghost use Rattle.std.specs.Prelude.{◌≡◌, ◌↔◌, ◌≤◌, ◌+◌, ◌∷◌, ◌++◌, [], List, length, IfOk, IsTrue, OnOk};
ghost use Rattle.tx_seen.specs.declared.item.Item.{Item};
ghost use Rattle.tx_seen.specs.declared.item.Item.TheVariants.{Gave};
ghost use Rattle.tx_seen.specs.Magnified.{magnification_in};
ghost use Rattle.tx_seen.specs.Readings.{More};
ghost use Rattle.tx_scan.specs.Rests.{HasTakenBy, IsGivenBy};
ghost use Rattle.tx_scan.specs.Supplied.{value_for, NeedsFewer};
ghost use Rattle.tx_expand.specs.Parts.{held, more_needed, rest, IsAt};
ghost use Rattle.tx_expand.specs.Scans.{reading};
ghost use Rattle.tx_expand.specs.Taken.{IsPending, IsRead, IsSettled};
ghost use Rattle.tx_expand.specs.Turns.{joined};

use crate::part::Part;
use crate::types::{Made, Read, Scanned};
use std::alloc::{AllocError, Global};
use std::marker::Model;
use tx_list::Items;
use tx_pending::Pending;
use tx_scan::{ControlNameScan, give_back};
use tx_seen::{Fed, Item, Kind, Quantities, Seen, Want};

/// An expansion that reads. Contracts see what it reads, and the tokens and values that it has taken. The scan of what it reads
/// stands on its own, so that little is moved where other expansions begin and end.
#[derive(Drop)]
pub struct Scanning {
    what: Scanned,
    taken: Items<Item>,
    want: Want,
    part: Box<Part>,
}

impl Model for Scanning {
    ghost use Rattle.tx_expand.specs.Scans.{Scan};
    ghost use Rattle.tx_expand.specs.Parts.{IsAt};

    ghost Value = { Scan };

    ghost view = { λ s. record { what = s.what; taken = s.taken } };

    ghost invariant = { λ s. IsAt s.what s.taken s.want s.part.value };
}

impl Scanning {
    /// One that has taken nothing, and wants its first token so. Its only error is want of memory.
    pub(crate) fn new(
        alloc: Global,
        what: Scanned,
        want: Want,
        part: Part,
    ) -> Result<Scanning, AllocError>
        requires { IsAt what [] want part }
        ensures { IfOk result (λ scanning. scanning ≡ record { what = what; taken = [] }) }
    {
        Ok(Scanning {
            what,
            taken: Items::new(alloc),
            want,
            part: Box::new(alloc, part)?,
        })
    }

    /// What it reads.
    pub(crate) fn what(&self) -> Scanned
        ensures { result ≡ self.now.what }
    {
        self.what
    }

    /// The magnification, where it was taken last.
    pub(crate) fn magnification(&self) -> Option<u16>
        ensures { result ≡ magnification_in self.now.taken }
    {
        match self.taken.as_slice().last() {
            Some(item) => item.magnification(),
            None => None,
        }
    }

    /// Whether both read the same, and have taken the same.
    pub(crate) fn same(&self, other: &Scanning) -> bool
        ensures { IsTrue result ↔ (self.now ≡ other.now) }
    {
        self.what == other.what && self.taken.same(&other.taken)
    }

    /// The same once more. Its only error is want of memory.
    pub(crate) fn share(&self) -> Result<Scanning, AllocError>
        ensures { IfOk result (λ shared. shared ≡ self.now) }
    {
        Ok(Scanning {
            what: self.what,
            taken: self.taken.share()?,
            want: self.want,
            part: self.part.clone()?,
        })
    }

    /// How it wants its next token.
    pub(crate) fn want(&self) -> Want
        ensures { reading self.now.what self.now.taken ≡ More result }
    {
        self.want
    }

    /// Takes one token, and the values that are needed behind it. What is whole gives the tokens back to the input that weren't
    /// needed; behind that and behind an error it may only be dropped. Its only error is want of memory.
    pub(crate) fn feed<Q: Quantities>(
        &mut self,
        alloc: Global,
        quantities: &Q,
        input: &mut Pending,
        token: Seen,
    ) -> Result<Read, AllocError>
        ensures { IfOk result (IsRead (Q.value_at quantities.now) self.old token input.old self.new input.new) }
    {
        let fed = take(
            alloc,
            self.what,
            &mut self.taken,
            &mut self.part,
            quantities,
            token,
        );
        match fed {
            Ok(Fed::More(want)) => {
                self.want = want;
                Ok(Read::More)
            }
            Ok(Fed::Need(_)) => unreachable!(),
            Ok(Fed::Done(made, back)) => {
                let given = give_back(&mut self.taken, input, back);
                forget(
                    alloc,
                    &mut self.what,
                    &mut self.taken,
                    &mut self.want,
                    &mut self.part,
                );
                given?;
                Ok(Read::Made(made))
            }
            Ok(Fed::Wrong(error)) => {
                forget(
                    alloc,
                    &mut self.what,
                    &mut self.taken,
                    &mut self.want,
                    &mut self.part,
                );
                Ok(Read::Wrong(error))
            }
            Err(error) => {
                forget(
                    alloc,
                    &mut self.what,
                    &mut self.taken,
                    &mut self.want,
                    &mut self.part,
                );
                Err(error)
            }
        }
    }
}

/// Forgets what was taken, as if a name were to be read.
fn forget(
    alloc: Global,
    what: &mut Scanned,
    taken: &mut Items<Item>,
    want: &mut Want,
    part: &mut Part,
)
    ensures { IsAt what.new taken.new want.new part.new }
{
    *what = Scanned::Name;
    taken.clear();
    *want = Want::Expanded;
    *part = Part::Name(ControlNameScan::new(alloc));
}

/// Takes one token, and the values that are needed behind it. Its only error is want of memory.
fn take<Q: Quantities>(
    alloc: Global,
    what: Scanned,
    taken: &mut Items<Item>,
    part: &mut Part,
    quantities: &Q,
    token: Seen,
) -> Result<Fed<Made>, AllocError>
    requires reads { HasTakenBy rest held (reading what) part.old taken.old }
    requires few { more_needed part.old ≤ length taken.old + 1 }
    ensures { IfOk result (IsSettled what (joined (Q.value_at quantities.now) (record { what = what; taken = taken.old }) token) taken.new part.new) }
{
    let fed = part.feed(alloc, &token)?;
    taken.push(Item::Took(token))?;
    settle(alloc, taken, part, quantities, fed)
}

/// Gives the values that are needed, as a table has them, until none is. Its only error is want of memory.
fn settle<Q: Quantities>(
    alloc: Global,
    taken: &mut Items<Item>,
    part: &mut Part,
    quantities: &Q,
    fed: Fed<Made>,
) -> Result<Fed<Made>, AllocError>
    ensures { (what : Scanned) (items : List Item) → IsPending (Q.value_at quantities.now) what items taken.old part.old fed → IfOk result (IsSettled what items taken.new part.new) }
{
    let mut fed = fed;
    loop {
        match fed {
            Fed::Need(kind) => fed = give(alloc, taken, part, quantities, &kind)?,
            settled => return Ok(settled),
        }
    }
}

/// Gives the value that is needed. Its only error is want of memory.
fn give<Q: Quantities>(
    alloc: Global,
    taken: &mut Items<Item>,
    part: &mut Part,
    quantities: &Q,
    kind: &Kind,
) -> Result<Fed<Made>, AllocError>
    ensures given { IfOk result (IsGivenBy rest held part.old (value_for (Q.value_at quantities.now) kind.now) part.new) }
    ensures needs { IfOk result (NeedsFewer (more_needed part.old) (more_needed part.new)) }
    ensures taken { OnOk result (taken.new ≡ taken.old ++ Gave (value_for (Q.value_at quantities.now) kind.now) ∷ []) }
{
    match kind {
        Kind::Quantity(place) => {
            let value = quantities.quantity(place);
            let fed = part.give(alloc, &value)?;
            taken.push(Item::Gave(value))?;
            Ok(fed)
        }
    }
}
