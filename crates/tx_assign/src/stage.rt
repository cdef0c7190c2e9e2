//! Assignments, token by token (The TeXbook, chapter 24; TeX: The Program, part 49).
ghost use Rattle.std.specs.Prelude.{◌≡◌, ◌≤◌, ◌∷◌, ◌++◌, [], List, Some, None, IfOk};
ghost use Rattle.tx_seen.specs.declared.item.Item.{Item};
ghost use Rattle.tx_seen.specs.declared.item.Item.TheVariants.{Took};
ghost use Rattle.tx_seen.specs.declared.seen.Seen.{Seen};
ghost use Rattle.tx_seen.specs.Readings.{Answers};
ghost use Rattle.tx_scan.specs.Supplied.{NeedsNoMore};
ghost use Rattle.tx_scan.specs.IntegerRests.{begun_integer, waiting};
ghost use Rattle.tx_assign.specs.Assignments.{assignment, arithmetic, behind_place, given, left_side};
ghost use Rattle.tx_assign.specs.declared.types.Assigning.{Assigning};
ghost use Rattle.tx_assign.specs.Rests.{HasTaken, IsAssigning, IsBegun, IsBehind, IsFed, IsSeldom, WaitsIfNeeded, by_rest, made, more_needed, no_assignment, told};

use crate::scan::{AssignScan, AssignStage};
use crate::types::{Assigning, Assignment, Change, Purpose, Variable};
use std::alloc::{AllocError, Global};
use std::mem::{replace, swap};
use tx_prim::Operation;
use tx_scan::{DimenScan, EqualsScan, GlueScan, IntScan, KeyScan};
use tx_seen::{Fed, Place, Seen, TexError, Want};

/// The place where nothing is read of one.
fn unread() -> Place
    ensures { result ≡ Place.Count 0 }
{
    Place::Count(0)
}

impl AssignScan {
    /// The scan of no assignment yet. It takes no memory.
    pub fn new(alloc: Global) -> AssignScan
        ensures { result ≡ no_assignment }
    {
        AssignScan {
            stage: AssignStage::LetName,
            place: unread(),
            change: Change::Text,
            integer: IntScan::new(alloc),
            size: DimenScan::new(alloc, false, false),
            glue: GlueScan::new(alloc, false),
        }
    }

    /// Begins the assignment behind this command, in the memory that the scan has; what was read before is forgotten.
    pub fn begin(&mut self, assigning: Assigning)
        ensures begun { IsBegun assigning self.new }
        ensures taken { HasTaken assigning self.new [] }
        ensures needed { more_needed self.new ≤ 1 }
    {
        match assigning {
            Assigning::Let => self.begin_at(AssignStage::LetName, unread()),
            Assigning::Arithmetic(operation) => {
                self.begin_at(AssignStage::Operand(operation), unread())
            }
            Assigning::Variable(variable) => self.begin_variable(variable),
            Assigning::Named(place, kind) => {
                self.begin_at(AssignStage::Equals(Purpose::Define(kind)), place)
            }
        }
    }

    /// Begins the assignment to this left side, in the memory that the scan has.
    pub fn begin_variable(&mut self, variable: Variable)
        ensures begun { IsBegun (Assigning.Variable variable) self.new }
        ensures taken { HasTaken (Assigning.Variable variable) self.new [] }
        ensures needed { more_needed self.new ≤ 1 }
    {
        match variable {
            Variable::Numbered(kind) => self.begin_at(AssignStage::Number(kind, None), unread()),
            Variable::Standing(place) => self.begin_at(AssignStage::Equals(Purpose::Set), place),
        }
    }

    /// It stands at the beginning of this stage, and a number is begun; a size and glue begin where one is needed.
    fn begin_at(&mut self, stage: AssignStage, place: Place)
        ensures { self.new ≡ record self.old { stage = stage; place = place; integer = begun_integer } }
    {
        self.stage = stage;
        self.place = place;
        self.integer.restart();
    }

    /// Takes one token, at first and after More. The answer, with what the scan has made, is what reading gives of all that was
    /// taken. Its only error is want of memory.
    #[inline(always)]
    pub fn feed(&mut self, token: &Seen) -> Result<Fed<()>, AllocError>
        ensures answer { (assigning : Assigning) → (taken : List Item) → HasTaken assigning self.old taken → IfOk result (λ fed. Answers (assignment assigning) (HasTaken assigning) (taken ++ Took token.now ∷ []) self.new (told self.new fed)) }
        ensures part { IfOk result (IsFed self.old token.now self.new) }
        ensures needed { IfOk result (NeedsNoMore (more_needed self.old) (more_needed self.new)) }
        ensures waits { IfOk result (WaitsIfNeeded self.new) }
    {
        self.behind(token)
    }

    /// What it is behind one more token. Its only error is want of memory.
    fn behind(&mut self, token: &Seen) -> Result<Fed<()>, AllocError>
        ensures part { IfOk result (IsFed self.old token.now self.new) }
        ensures needed { IfOk result (NeedsNoMore (more_needed self.old) (more_needed self.new)) }
        ensures waits { IfOk result (WaitsIfNeeded self.new) }
    {
        match self.stage {
            // most tokens
            AssignStage::Number(kind, operation) => self.feed_number(kind, operation, token),
            AssignStage::Equals(purpose) => self.feed_equals(purpose, token),
            AssignStage::Integer(purpose) => self.feed_integer(purpose, token),
            _ => self.behind_other(token),
        }
    }

    /// Hands out the assignment that it has made, once its answer was Done. What stood there stands in the scan then.
    pub fn hand_out(&mut self, to: &mut Assignment)
        ensures out { to.new ≡ made self.old }
        ensures left { self.new ≡ record self.old { place = to.old.place; change = to.old.change } }
    {
        swap(&mut self.place, &mut to.place);
        swap(&mut self.change, &mut to.change);
    }

    /// What it is behind one more token at all other stages. Its only error is want of memory.
    #[inline(never)]
    fn behind_other(&mut self, token: &Seen) -> Result<Fed<()>, AllocError>
        requires { IsSeldom self.old.stage }
        ensures part { IfOk result (IsFed self.old token.now self.new) }
        ensures needed { IfOk result (NeedsNoMore (more_needed self.old) (more_needed self.new)) }
        ensures waits { IfOk result (WaitsIfNeeded self.new) }
    {
        match self.stage {
            AssignStage::LetName => self.feed_name(token),
            AssignStage::LetBehindName => self.feed_behind_name(token),
            AssignStage::LetBehindEquals => self.feed_behind_equals(token),
            AssignStage::LetToken => self.feed_token(token),
            AssignStage::Operand(operation) => Ok(self.feed_operand(operation, token)),
            AssignStage::By(operation, word) => self.feed_by(operation, word, token),
            AssignStage::Size(purpose) => self.feed_size(purpose, token),
            AssignStage::Glue(purpose) => self.feed_glue(purpose, token),
            AssignStage::List => Ok(self.feed_list(token)),
            AssignStage::Number(_, _) => unreachable!(),
            AssignStage::Equals(_) | AssignStage::Integer(_) => unreachable!(),
        }
    }

    /// This is assigned to.
    pub(crate) fn set_place(&mut self, place: Place)
        ensures { self.new ≡ record self.old { place = place } }
    {
        self.place = place;
    }

    /// The assignment is whole: this becomes of its place. So many tokens behind it are given back.
    #[inline(never)]
    pub(crate) fn end(&mut self, change: Change, back: usize) -> Fed<()>
        ensures scan { self.new ≡ record self.old { change = change } }
        ensures answer { result ≡ Fed.Done tt back }
    {
        drop(replace(&mut self.change, change));
        Fed::Done((), back)
    }

    /// The scan goes on with this stage, for which the next token is expanded.
    pub(crate) fn on(&mut self, stage: AssignStage) -> Fed<()>
        ensures scan { self.new ≡ record self.old { stage = stage } }
        ensures answer { result ≡ Fed.More Want.Expanded }
    {
        self.stage = stage;
        Fed::More(Want::Expanded)
    }

    /// What comes behind the place on a left side.
    pub(crate) fn to_place(&mut self, operation: Option<Operation>) -> Fed<()>
        ensures answer { (t : Seen) → IsAssigning 0 (λ more. behind_place operation self.old.place more) t self.new result }
        ensures needed { NeedsNoMore (waiting self.old.integer) (more_needed self.new) result }
        ensures waits { WaitsIfNeeded self.new result }
    {
        match operation {
            None => self.on(AssignStage::Equals(Purpose::Set)),
            Some(operation) => self.on(AssignStage::By(operation, KeyScan::new())),
        }
    }

    /// The first token behind the place on a left side. Its only error is want of memory.
    pub(crate) fn feed_place(
        &mut self,
        operation: Option<Operation>,
        token: &Seen,
    ) -> Result<Fed<()>, AllocError>
        ensures answer { IfOk result (IsBehind (λ more. behind_place operation self.old.place (Took token.now ∷ more)) token.now self.new) }
        ensures needed { IfOk result (NeedsNoMore (waiting self.old.integer) (more_needed self.new)) }
        ensures waits { IfOk result (WaitsIfNeeded self.new) }
    {
        match operation {
            None => self.feed_equals(Purpose::Set, token),
            Some(operation) => self.feed_by(operation, KeyScan::new(), token),
        }
    }

    /// What comes behind the command on the left side that an operation changes.
    fn to_side(&mut self, operation: Operation, side: Variable) -> Fed<()>
        ensures answer { (t : Seen) → IsAssigning 0 (λ more. left_side (Some operation) side more) t self.new result }
        ensures needed { NeedsNoMore (waiting self.old.integer) (more_needed self.new) result }
        ensures waits { WaitsIfNeeded self.new result }
    {
        match side {
            Variable::Standing(place) => {
                self.set_place(place);
                self.to_place(Some(operation))
            }
            Variable::Numbered(kind) => {
                self.integer.restart();
                self.on(AssignStage::Number(kind, Some(operation)))
            }
        }
    }

    /// What \advance and its kin change.
    #[inline(never)]
    fn feed_operand(&mut self, operation: Operation, token: &Seen) -> Fed<()>
        ensures answer { IsAssigning 0 (λ more. arithmetic operation (Took token.now ∷ more)) token.now self.new result }
        ensures needed { NeedsNoMore (waiting self.old.integer) (more_needed self.new) result }
        ensures waits { WaitsIfNeeded self.new result }
    {
        if token.is_undefined() {
            return Fed::Wrong(TexError::Undefined);
        }
        let Some(side) = Variable::of_meaning(&token.meaning) else {
            return Fed::Wrong(TexError::NoAssignment);
        };
        if side.is_changeable() {
            self.to_side(operation, side)
        } else {
            Fed::Wrong(TexError::NoAssignment)
        }
    }

    /// An optional `=`, or the first token of the value. Its only error is want of memory.
    #[inline(never)]
    fn feed_equals(&mut self, purpose: Purpose, token: &Seen) -> Result<Fed<()>, AllocError>
        ensures answer { IfOk result (IsBehind (λ more. given purpose self.old.place (Took token.now ∷ more)) token.now self.new) }
        ensures needed { IfOk result (NeedsNoMore (waiting self.old.integer) (more_needed self.new)) }
        ensures waits { IfOk result (WaitsIfNeeded self.new) }
    {
        let mut equals = EqualsScan::new();
        match equals.feed(token) {
            Fed::More(want) => {
                self.stage = AssignStage::Equals(purpose);
                Ok(Fed::More(want))
            }
            Fed::Done(_, 0) => Ok(self.to_value(purpose)),
            Fed::Done(_, _) => self.feed_value(purpose, token),
            Fed::Need(kind) => Ok(Fed::Need(kind)),
            Fed::Wrong(error) => Ok(Fed::Wrong(error)),
        }
    }

    /// An optional `by`, of which this is read, or the first token of the value. Its only error is want of memory.
    #[inline(never)]
    fn feed_by(
        &mut self,
        operation: Operation,
        word: KeyScan,
        token: &Seen,
    ) -> Result<Fed<()>, AllocError>
        ensures answer { IfOk result (IsBehind (λ more. by_rest word operation self.old.place (Took token.now) more) token.now self.new) }
        ensures needed { IfOk result (NeedsNoMore (waiting self.old.integer) (more_needed self.new)) }
        ensures waits { IfOk result (WaitsIfNeeded self.new) }
    {
        let mut word = word;
        match word.feed(b"by", token) {
            Fed::More(want) => {
                self.stage = AssignStage::By(operation, word);
                Ok(Fed::More(want))
            }
            Fed::Done(true, 0) => Ok(self.to_value(Purpose::Compute(operation))),
            Fed::Done(true, _) => self.feed_value(Purpose::Compute(operation), token),
            Fed::Done(false, 1) => self.feed_value(Purpose::Compute(operation), token),
            Fed::Done(false, _) => Ok(Fed::Wrong(TexError::MissingNumber)),
            Fed::Need(kind) => Ok(Fed::Need(kind)),
            Fed::Wrong(error) => Ok(Fed::Wrong(error)),
        }
    }
}
