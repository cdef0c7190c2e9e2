//! A command that is open: the mode, what stands before it, and what of it is taken (TeX: The Program, part 46).
ghost use Rattle.std.specs.Prelude.{◌≡◌, ◌↔◌, [], false, IfOk, IsTrue};
ghost use Rattle.tx_prim.specs.declared.modes.Mode.{Mode};
ghost use Rattle.tx_seen.specs.Readings.{More};
ghost use Rattle.tx_command.specs.declared.types.Head.{Head};
ghost use Rattle.tx_command.specs.Commands as commands;
ghost use Rattle.tx_command.specs.Commands.{leaders_before as leaders_of, part_before as part_of, prefixes_of};
ghost use Rattle.tx_seen.specs.Magnified.{magnification_in};
ghost use Rattle.tx_command.specs.Rests.{whole_command};
ghost use Rattle.tx_command.specs.Taken.{IsTaken};

use crate::buffer::CommandBuffer;
use crate::scans::{Scans, Stage, Taken, Whole};
use crate::taken_items::TakenItems;
use crate::tokens::TakesTokens;
use crate::types::{Delimiting, Head, Prefixes};
use std::alloc::{AllocError, Global};
use std::marker::Model;
use std::mem::replace;
use tx_assign::AssignScan;
use tx_list::{Kept, both};
use tx_node::{BoxNode, Rule};
use tx_pending::Pending;
use tx_prim::{AtomPart, LeadersKind, Mode};
use tx_rule::RuleScan;
use tx_scan::DimenScan;
use tx_seen::{Fed, Quantities, Seen, Want};
use tx_shape::{LoadScan, ShapeScan};

/// A command that is being taken off the input. Contracts see the mode, what stands before the command, and the tokens and
/// values that were taken since it began.
pub struct CommandScan {
    mode: Mode,
    head: Head,
    taken: TakenItems,
    /// How the next token is wanted.
    want: Want,
    /// Behind a pointer, so that what holds a command is moved and dropped in few steps.
    scans: Box<Scans>,
}

// (by hand, so that crates above call this and don't prove again how each part is dropped)
impl Drop for CommandScan {
    fn drop(self) {
        let CommandScan {
            mode: _,
            head: _,
            taken: _,
            want: _,
            scans: _,
        } = self;
    }
}

impl Model for CommandScan {
    ghost use Rattle.std.specs.Coded.{codes};
    ghost use Rattle.tx_command.specs.Begun.{Begun};
    ghost use Rattle.tx_command.specs.Rests.{IsAt};
    ghost use Rattle.tx_command.specs.contracts.types.Head as a_head;

    ghost Value = { Begun };

    ghost coded = { Prim.hlevel (codes, a_head.the_row.coded) };

    ghost view = { λ s. record { mode = s.mode; head = s.head; taken = s.taken } };

    ghost invariant = { λ s. IsAt s.mode s.head s.taken s.want s.scans.value };
}

impl CommandScan {
    /// A command of which nothing is taken, in this mode, and nothing before it. Its only error is want of memory.
    pub fn new(alloc: Global, mode: Mode) -> Result<CommandScan, AllocError>
        ensures { IfOk result (λ scan. scan ≡ record { mode = mode; head = Head.Fresh; taken = [] }) }
    {
        let scans = Box::new(alloc, Scans::new(alloc))?;
        Ok(CommandScan {
            mode,
            head: Head::Fresh,
            taken: TakenItems::new(alloc),
            want: Want::Expanded,
            scans,
        })
    }

    /// How the command wants its next token.
    pub fn want(&self) -> Want
        ensures { commands.command self.now.mode self.now.head self.now.taken ≡ More result }
    {
        self.want
    }

    /// The mode.
    pub fn mode(&self) -> Mode
        ensures { result ≡ self.now.mode }
    {
        self.mode
    }

    /// The prefixes before the command.
    pub fn prefixes(&self) -> Prefixes
        ensures { result ≡ prefixes_of self.now.head }
    {
        match &self.head {
            Head::Fresh | Head::Leading(_, _) | Head::Opening(_) => no_prefixes(),
            Head::LeadingBox(_, _) | Head::Shift | Head::Part(_) => no_prefixes(),
            Head::Delimiting(_) | Head::Thickness(_, _) => no_prefixes(),
            Head::Aligning(_) | Head::Preamble | Head::Row | Head::Entry => no_prefixes(),
            Head::SecondShift | Head::Displayed => no_prefixes(),
            Head::Prefixed(prefixes) | Head::Defining(prefixes, _, _) | Head::Future(prefixes, _) =>
                *prefixes,
            Head::Loading(prefixes, _) | Head::Shaping(prefixes, _, _) => *prefixes,
            Head::Accenting(prefixes) => *prefixes,
        }
    }

    /// The leaders that stand before the command, with the rule that they repeat.
    pub fn leaders(&self) -> Option<(LeadersKind, Rule)>
        ensures { result ≡ leaders_of self.now.head }
    {
        match &self.head {
            Head::Leading(kind, rule) => Some((*kind, *rule)),
            // of all others alike
            _ => None,
        }
    }

    /// The same with the box that they repeat, of which one more owner is answered. Its only error is that no more owners can be
    /// counted.
    pub fn box_leaders(&self) -> Result<Option<(LeadersKind, BoxNode)>, AllocError>
        ensures { IfOk result (λ found. found ≡ commands.box_before self.now.head) }
    {
        match &self.head {
            Head::LeadingBox(kind, repeated) => Ok(Some((*kind, repeated.clone()?))),
            // of all others alike
            _ => Ok(None),
        }
    }

    /// Whether the first token of the command is only looked at, and read again.
    pub fn is_peeking(&self) -> bool
        ensures { result ≡ commands.is_peeking self.now.head }
    {
        matches!(self.head, Head::Shift)
    }

    /// The part of an atom that the command is to be.
    pub fn part(&self) -> Option<AtomPart>
        ensures { result ≡ part_of self.now.head }
    {
        match &self.head {
            Head::Part(part) => Some(*part),
            // of all others alike
            _ => None,
        }
    }

    /// Which delimiter the command is to be.
    pub fn delimiting(&self) -> Option<Delimiting>
        ensures { result ≡ commands.delimiting_before self.now.head }
    {
        match &self.head {
            Head::Delimiting(delimiting) => Some(*delimiting),
            // of all others alike
            _ => None,
        }
    }

    /// The numbers of the delimiters that stand before the command, where it is to be the size of a fraction's line.
    pub fn delimiters(&self) -> Option<(u32, u32)>
        ensures { result ≡ commands.delimiters_before self.now.head }
    {
        match &self.head {
            Head::Thickness(left, right) => Some((*left, *right)),
            // of all others alike
            _ => None,
        }
    }

    /// Whether an accent waits for what stands below it.
    pub fn is_accenting(&self) -> bool
        ensures { result ≡ commands.is_accenting self.now.head }
    {
        matches!(self.head, Head::Accenting(_))
    }

    /// The level of braces at which the \halign stood that stands before the command; 0 where none does.
    pub fn level(&self) -> i64
        ensures { result ≡ commands.level_before self.now.head }
    {
        match &self.head {
            Head::Aligning(level) => *level,
            // of all others alike
            _ => 0,
        }
    }

    /// Whether the command is a token of a preamble.
    pub fn is_preamble(&self) -> bool
        ensures { result ≡ commands.is_preamble self.now.head }
    {
        matches!(self.head, Head::Preamble)
    }

    /// Whether the first entry of a row is to come, and not a further one.
    pub fn is_row(&self) -> bool
        ensures { result ≡ commands.is_row self.now.head }
    {
        matches!(self.head, Head::Row)
    }

    /// Whether a token of the command is taken.
    pub fn is_begun(&self) -> bool
        ensures { result ≡ commands.is_begun self.now.taken }
    {
        !self.taken.is_empty()
    }

    /// Whether the name of a file is being read, which an \input ends.
    pub fn is_naming(&self) -> bool
        ensures { result ≡ commands.is_naming self.now.head self.now.taken }
    {
        match &self.head {
            Head::Loading(_, _) => self.taken.is_naming(),
            // of all others alike
            _ => false,
        }
    }

    /// The magnification, where it was taken last.
    pub fn magnification(&self) -> Option<u16>
        ensures { result ≡ magnification_in self.now.taken }
    {
        match self.taken.as_slice().last() {
            Some(item) => item.magnification(),
            None => None,
        }
    }

    /// Begins a command in another mode; what stands before it stays.
    pub fn enter(&mut self, mode: Mode)
        ensures { self.new ≡ record { mode = mode; head = self.old.head; taken = [] } }
    {
        self.mode = mode;
        begin_next(&self.head, &mut self.taken, &mut self.want, &mut self.scans);
    }

    /// Begins a command behind this.
    pub fn begin_behind(&mut self, head: Head)
        ensures { self.new ≡ record { mode = self.old.mode; head = head; taken = [] } }
    {
        self.head = head;
        begin_next(&self.head, &mut self.taken, &mut self.want, &mut self.scans);
    }

    /// Begins a command that nothing stands before, and answers what stood before the last one.
    pub fn take_head(&mut self) -> Head
        ensures head { result ≡ self.old.head }
        ensures left { self.new ≡ record { mode = self.old.mode; head = Head.Fresh; taken = [] } }
    {
        let head = replace(&mut self.head, Head::Fresh);
        self.want = Want::Expanded;
        restart(&mut self.taken, &mut self.scans);
        head
    }

    /// Begins a command that nothing stands before.
    pub fn begin_fresh(&mut self)
        ensures { self.new ≡ record { mode = self.old.mode; head = Head.Fresh; taken = [] } }
    {
        if self.is_fresh() {
            self.want = Want::Expanded;
            restart(&mut self.taken, &mut self.scans);
        } else {
            self.begin_behind(Head::Fresh);
        }
    }

    /// Whether nothing stands before the command.
    pub fn is_fresh(&self) -> bool
        ensures { IsTrue result ↔ (self.now.head ≡ Head.Fresh) }
    {
        matches!(self.head, Head::Fresh)
    }

    /// Whether both have taken the same, in the same mode and behind the same.
    pub fn same(&self, other: &CommandScan) -> bool
        ensures { IsTrue result ↔ (self.now ≡ other.now) }
    {
        self.mode == other.mode && self.head.same(&other.head) && self.taken.same(&other.taken)
    }

    /// Takes one token more, by what reads commands, and the values that the command needs behind it. A whole command is put into
    /// `made`. Behind it, whose last tokens are put at the front of the input where they aren't part of it, or a wrong one, the
    /// next begins. Its only error is want of memory.
    pub fn feed<R: TakesTokens, Q: Quantities>(
        &mut self,
        quantities: &Q,
        input: &mut Pending,
        token: Seen,
        made: &mut CommandBuffer,
    ) -> Result<Taken, AllocError>
        ensures { IfOk result (IsTaken (Q.value_at quantities.now) self.old token input.old self.new input.new made.new) }
    {
        let fed = R::take(
            self.mode,
            &self.head,
            &mut self.taken,
            &mut self.scans,
            quantities,
            token,
            made,
        );
        match fed {
            // most tokens
            Ok(Fed::More(want)) => {
                self.want = want;
                Ok(Taken::More)
            }
            Ok(Fed::Need(_kind)) => unreachable!(),
            Ok(Fed::Done(whole, back)) => {
                let given = self.taken.put_back(input, back);
                take_whole(whole, &mut self.scans, made);
                begin_next(&self.head, &mut self.taken, &mut self.want, &mut self.scans);
                given?;
                Ok(Taken::Whole)
            }
            Ok(Fed::Wrong(error)) => {
                begin_next(&self.head, &mut self.taken, &mut self.want, &mut self.scans);
                Ok(Taken::Wrong(error))
            }
            Err(error) => {
                begin_next(&self.head, &mut self.taken, &mut self.want, &mut self.scans);
                Err(error)
            }
        }
    }
}

impl Scans {
    /// The scans of a command of which nothing is read. They take no memory.
    pub(crate) fn new(alloc: Global) -> Scans
        ensures { result.stage ≡ Stage.Start }
    {
        Scans {
            stage: Stage::Start,
            assignment: AssignScan::new(alloc),
            size: DimenScan::new(alloc, false, false),
            rule: RuleScan::new(alloc),
            shape: ShapeScan::new(alloc),
            loading: LoadScan::new(alloc),
        }
    }
}

/// The command that is whole is put beside, wherever it stands.
#[inline(never)]
fn take_whole(whole: Whole, scans: &mut Scans, made: &mut CommandBuffer)
    ensures { made.new ≡ whole_command scans.old made.old whole }
{
    match whole {
        Whole::Assignment => made.put_assignment(&mut scans.assignment),
        Whole::Command => {}
    }
}

/// No prefixes.
fn no_prefixes() -> Prefixes
    ensures { result ≡ record { global = false; long = false; outer = false } }
{
    Prefixes {
        global: false,
        long: false,
        outer: false,
    }
}

/// How the first token behind this is wanted.
fn begun_want(head: &Head) -> Want
    ensures { (mode : Mode) → commands.command mode head.now [] ≡ More result }
{
    match head {
        Head::Fresh | Head::Prefixed(_) | Head::Defining(_, _, _) => Want::Expanded,
        Head::Leading(_, _) | Head::Loading(_, _) | Head::Shaping(_, _, _) => Want::Expanded,
        Head::LeadingBox(_, _) | Head::Opening(_) | Head::Part(_) => Want::Expanded,
        Head::Delimiting(_) | Head::Thickness(_, _) | Head::Accenting(_) => Want::Expanded,
        Head::Aligning(_) | Head::Row | Head::Entry => Want::Expanded,
        Head::SecondShift | Head::Displayed => Want::Expanded,
        Head::Future(_, _) | Head::Shift | Head::Preamble => Want::Raw,
    }
}

/// Nothing is taken of the next command.
fn restart(taken: &mut TakenItems, scans: &mut Scans)
    ensures taken { taken.new ≡ [] }
    ensures scans { scans.new ≡ record scans.old { stage = Stage.Start } }
{
    taken.clear();
    scans.stage = Stage::Start;
}

/// The next command begins behind this, of which nothing is taken.
#[inline(never)]
fn begin_next(head: &Head, taken: &mut TakenItems, want: &mut Want, scans: &mut Scans)
    ensures taken { taken.new ≡ [] }
    ensures want { (mode : Mode) → commands.command mode head.now [] ≡ More want.new }
    ensures scans { scans.new ≡ record scans.old { stage = Stage.Start } }
{
    *want = begun_want(head);
    restart(taken, scans);
}

/// A clone has taken the same. Its only error is want of memory.
impl Clone for CommandScan {
    ghost is_clone = { λ source copy. copy ≡ source };

    fn clone(&self) -> Result<Self, AllocError> {
        let before = both(self.head.share(), self.taken.clone());
        let ((head, taken), scans) = both(before, self.scans.clone())?;
        Ok(CommandScan {
            mode: self.mode,
            head,
            taken,
            want: self.want,
            scans,
        })
    }
}
