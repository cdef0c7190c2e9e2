//! The tests of conditionals, token by token (TeX: The Program, sections 501 to 509).
ghost use Rattle.std.specs.Prelude.{◌≡◌, ◌≤◌, ◌∷◌, ◌++◌, [], List, IfOk};
ghost use Rattle.tx_prim.specs.declared.expandable.Test.{Test as Kind_of_test};
ghost use Rattle.tx_prim.specs.declared.modes.Mode.{Mode as Mode_of_test};
ghost use Rattle.tx_seen.specs.declared.item.Item.{Item};
ghost use Rattle.tx_seen.specs.declared.item.Item.TheVariants.{Took, Gave};
ghost use Rattle.tx_seen.specs.declared.seen.Seen.{Seen};
ghost use Rattle.tx_seen.specs.Readings.{Answers};
ghost use Rattle.tx_scan.specs.Mapped.{settled};
ghost use Rattle.tx_scan.specs.QuantityRests.{begun_at_number};
ghost use Rattle.tx_scan.specs.declared.scans.Sought.TheVariants as sought;
ghost use Rattle.tx_scan.specs.Rests.{IsFedBy, IsGivenBy};
ghost use Rattle.tx_scan.specs.Supplied.{NeedsFewer, NeedsNoMore, NeedsNothing};
ghost use Rattle.tx_cond.specs.Tests as spec;
ghost use Rattle.tx_cond.specs.Tests.{test, answer_of, behind_left, two_tokens};
ghost use Rattle.tx_cond.specs.TestRests.{HasTaken, IsFed, IsTesting, more_needed, second_of};
ghost use Rattle.tx_cond.specs.TestRests as rests;

use crate::comparing::truth;
use crate::test::{Comparand, ComparandScan, Compared, Judged, Relation, TestScan, TestStage};
use std::alloc::{AllocError, Global};
use tx_prim::{BoxTest, Mode, Test};
use tx_scan::{QuantityScan, Sought};
use tx_seen::{Fed, Seen, TexError, Value, Want};

/// Whether the box of a register is as it is tested, 1 or 0.
fn answered(fed: Fed<Value>) -> Fed<i64>
    ensures { result ≡ settled answer_of fed }
{
    match fed {
        Fed::More(want) => Fed::More(want),
        Fed::Need(kind) => Fed::Need(kind),
        Fed::Done(Value::Flag(holds), back) => Fed::Done(truth(holds), back),
        Fed::Done(Value::Int(_) | Value::Dimen(_) | Value::Glue(_) | Value::Muglue(_), _) => {
            Fed::Wrong(TexError::MissingNumber)
        }
        Fed::Done(Value::Magnification(_) | Value::Absent | Value::OutOfRange, _) => {
            Fed::Wrong(TexError::MissingNumber)
        }
        Fed::Wrong(error) => Fed::Wrong(error),
    }
}

/// What the relation of a test stands between, where it has one.
fn compared_by(kind: Test) -> Comparand
    ensures { result ≡ spec.compared_by kind }
{
    match kind {
        Test::Dimension => Comparand::Size,
        Test::Number | Test::Odd | Test::Case | Test::Box(_) => Comparand::Number,
        Test::Character | Test::Category | Test::Same => Comparand::Number,
        Test::Mode(_) | Test::True | Test::False => Comparand::Number,
    }
}

impl TestScan {
    /// A scan in which no test has begun. It takes no memory.
    pub fn new(alloc: Global) -> TestScan {
        TestScan {
            stage: TestStage::Left(Comparand::Number),
            scan: ComparandScan::new(alloc),
            quantity: QuantityScan::new(alloc),
            token: None,
        }
    }

    /// Begins a test, in this mode, whatever was read before. The answer is what reading gives of nothing: some tests take
    /// nothing, and have their value at once.
    pub fn begin(&mut self, kind: Test, mode: Mode) -> Fed<i64>
        ensures answer { Answers (test kind mode) (HasTaken kind mode) [] self.new result }
        ensures few { more_needed self.new ≤ 1 }
    {
        self.scan.restart(compared_by(kind));
        self.stage = TestStage::Left(Comparand::Number);
        match kind {
            Test::Character => self.on(TestStage::First(Compared::Code), Want::Expanded),
            Test::Category => self.on(TestStage::First(Compared::Category), Want::Expanded),
            Test::Same => self.on(TestStage::First(Compared::Meaning), Want::Raw),
            Test::Number => self.on(TestStage::Left(Comparand::Number), Want::Expanded),
            Test::Dimension => self.on(TestStage::Left(Comparand::Size), Want::Expanded),
            Test::Odd => self.on(TestStage::Last(Judged::Odd), Want::Expanded),
            Test::Case => self.on(TestStage::Last(Judged::Case), Want::Expanded),
            Test::Box(test) => self.to_register(test),
            Test::Mode(which) => Fed::Done(truth(which.holds(mode)), 0),
            Test::True => Fed::Done(1, 0),
            Test::False => Fed::Done(0, 0),
        }
    }

    /// The scan goes on with this stage, for which the next token is wanted so.
    fn on(&mut self, stage: TestStage, want: Want) -> Fed<i64>
        ensures scan { self.new ≡ record self.old { stage = stage } }
        ensures answer { result ≡ Fed.More want }
    {
        self.stage = stage;
        Fed::More(want)
    }

    /// The scan goes on with the register whose box is tested.
    fn to_register(&mut self, test: BoxTest) -> Fed<i64>
        ensures scan { self.new ≡ record self.old { stage = TestStage.Register; quantity = begun_at_number (sought.Box test) } }
        ensures answer { result ≡ Fed.More Want.Expanded }
    {
        let _ = self.quantity.begin_behind(Sought::Box(test));
        self.on(TestStage::Register, Want::Expanded)
    }

    /// Takes one token, at first and after More. The answer is what reading gives of all that was taken. Its only error is
    /// want of memory.
    pub fn feed(&mut self, token: &Seen) -> Result<Fed<i64>, AllocError>
        ensures answer { (kind : Kind_of_test) → (mode : Mode_of_test) → (taken : List Item) → HasTaken kind mode self.old taken → IfOk result (Answers (test kind mode) (HasTaken kind mode) (taken ++ Took token.now ∷ []) self.new) }
        ensures part { IfOk result (IsFedBy rests.rest rests.held self.old token.now self.new) }
        ensures fed { IfOk result (IsFed self.old token.now self.new) }
        ensures needed { IfOk result (NeedsNoMore (more_needed self.old) (more_needed self.new)) }
    {
        self.behind(token)
    }

    /// What it is behind one more token. Its only error is want of memory.
    #[tactic(auto, using(crate::proofs::Lefts::needs_no_more))]
    fn behind(&mut self, token: &Seen) -> Result<Fed<i64>, AllocError>
        ensures fed { IfOk result (IsFed self.old token.now self.new) }
        ensures needed { IfOk result (NeedsNoMore (more_needed self.old) (more_needed self.new)) }
    {
        match self.stage {
            TestStage::Left(comparand) => self.feed_left(comparand, token),
            TestStage::Relation(comparand, left) => Ok(self.feed_relation(comparand, left, token)),
            TestStage::Last(judged) => self.feed_last(judged, token),
            TestStage::Register => self.feed_register(token),
            TestStage::First(compared) => self.feed_first(compared, token),
            TestStage::Second(compared) => Ok(self.feed_second(compared, token)),
        }
    }

    /// The first of two comparands, or what ends it. Its only error is want of memory.
    #[tactic(auto, using(crate::proofs::Lefts::needs_no_more))]
    fn feed_left(&mut self, comparand: Comparand, token: &Seen) -> Result<Fed<i64>, AllocError>
        requires { self.old.stage ≡ TestStage.Left comparand }
        ensures fed { IfOk result (IsFed self.old token.now self.new) }
        ensures needed { IfOk result (NeedsNoMore (more_needed self.old) (more_needed self.new)) }
    {
        match self.scan.feed(token)? {
            Fed::More(want) => Ok(Fed::More(want)),
            Fed::Need(wanted) => {
                self.token = Some(token.clone()?);
                Ok(Fed::Need(wanted))
            }
            Fed::Done(number, 0) => Ok(self.to_relation(comparand, number)),
            Fed::Done(number, _) => Ok(self.feed_relation(comparand, number, token)),
            Fed::Wrong(error) => Ok(Fed::Wrong(error)),
        }
    }

    /// The first of two comparands is whole.
    fn to_relation(&mut self, comparand: Comparand, left: i64) -> Fed<i64>
        ensures answer { (t : Seen) → IsTesting 0 (λ more. behind_left comparand left more) t self.new result }
        ensures nothing { NeedsNothing result }
        ensures none { more_needed self.new ≡ 0 }
    {
        self.scan.restart(comparand);
        self.on(TestStage::Relation(comparand, left), Want::Expanded)
    }

    /// A relation, or a space before it.
    fn feed_relation(&mut self, comparand: Comparand, left: i64, token: &Seen) -> Fed<i64>
        ensures answer { IsTesting 0 (λ more. behind_left comparand left (Took token.now ∷ more)) token.now self.new result }
        ensures nothing { NeedsNothing result }
        ensures none { more_needed self.new ≡ 0 }
    {
        self.scan.restart(comparand);
        self.stage = TestStage::Relation(comparand, left);
        if token.is_undefined() {
            return Fed::Wrong(TexError::Undefined);
        }
        if token.is_space() {
            return Fed::More(Want::Expanded);
        }
        match Relation::of_token(&token.token) {
            Some(relation) => self.on(
                TestStage::Last(Judged::Against(left, relation)),
                Want::Expanded,
            ),
            None => Fed::Wrong(TexError::MissingUnit),
        }
    }

    /// The last one, or what ends it. Its only error is want of memory.
    fn feed_last(&mut self, judged: Judged, token: &Seen) -> Result<Fed<i64>, AllocError>
        requires { self.old.stage ≡ TestStage.Last judged }
        ensures fed { IfOk result (IsFed self.old token.now self.new) }
        ensures needed { IfOk result (NeedsNoMore (more_needed self.old) (more_needed self.new)) }
    {
        match self.scan.feed(token)? {
            Fed::More(want) => Ok(Fed::More(want)),
            Fed::Need(kind) => Ok(Fed::Need(kind)),
            Fed::Done(number, back) => Ok(Fed::Done(judged.judgement(number), back)),
            Fed::Wrong(error) => Ok(Fed::Wrong(error)),
        }
    }

    /// The number of a register, or what ends it. Its only error is want of memory.
    fn feed_register(&mut self, token: &Seen) -> Result<Fed<i64>, AllocError>
        requires { self.old.stage ≡ TestStage.Register }
        ensures fed { IfOk result (IsFed self.old token.now self.new) }
        ensures needed { IfOk result (NeedsNoMore (more_needed self.old) (more_needed self.new)) }
    {
        Ok(answered(self.quantity.feed(token)?))
    }

    /// Whether a token that was to be expanded has no meaning.
    fn is_wrong(compared: Compared, token: &Seen) -> bool
        ensures { result ≡ rests.is_wrong compared token.now }
    {
        match compared {
            Compared::Code | Compared::Category => token.is_undefined(),
            Compared::Meaning => false,
        }
    }

    /// The first of two tokens, which is kept. Its only error is that no more owners can be counted.
    fn feed_first(&mut self, compared: Compared, token: &Seen) -> Result<Fed<i64>, AllocError>
        requires { self.old.stage ≡ TestStage.First compared }
        ensures answer { IfOk result (IsTesting 0 (λ more. two_tokens compared (Took token.now ∷ more)) token.now self.new) }
        ensures needed { IfOk result (NeedsNoMore (more_needed self.old) (more_needed self.new)) }
    {
        if TestScan::is_wrong(compared, token) {
            return Ok(Fed::Wrong(TexError::Undefined));
        }
        self.token = Some(token.clone()?);
        Ok(self.on(TestStage::Second(compared), compared.want()))
    }

    /// The second of two tokens.
    fn feed_second(&mut self, compared: Compared, token: &Seen) -> Fed<i64>
        requires { self.old.stage ≡ TestStage.Second compared }
        ensures answer { IsTesting 0 (λ more. second_of compared self.old.token (Took token.now ∷ more)) token.now self.new result }
        ensures needed { NeedsNoMore (more_needed self.old) (more_needed self.new) result }
    {
        let Some(first) = &self.token else {
            return Fed::Wrong(TexError::MissingNumber);
        };
        if TestScan::is_wrong(compared, token) {
            return Fed::Wrong(TexError::Undefined);
        }
        Fed::Done(truth(compared.alike(first, token)), 0)
    }

    /// Takes the value that it needs. The answer is what reading gives of all that was taken. Its only error is want of
    /// memory.
    pub fn give(&mut self, value: &Value) -> Result<Fed<i64>, AllocError>
        ensures answer { (kind : Kind_of_test) → (mode : Mode_of_test) → (taken : List Item) → HasTaken kind mode self.old taken → IfOk result (Answers (test kind mode) (HasTaken kind mode) (taken ++ Gave value.now ∷ []) self.new) }
        ensures part { IfOk result (IsGivenBy rests.rest rests.held self.old value.now self.new) }
        ensures fewer { IfOk result (NeedsFewer (more_needed self.old) (more_needed self.new)) }
    {
        self.behind_value(value)
    }

    /// What it is behind a value. Its only error is want of memory.
    fn behind_value(&mut self, value: &Value) -> Result<Fed<i64>, AllocError>
        ensures part { IfOk result (IsGivenBy rests.rest rests.held self.old value.now self.new) }
        ensures fewer { IfOk result (NeedsFewer (more_needed self.old) (more_needed self.new)) }
    {
        match self.stage {
            TestStage::Left(comparand) => self.give_left(comparand, value),
            TestStage::Last(judged) => self.give_last(judged, value),
            TestStage::Register => Ok(self.give_register(value)),
            TestStage::Relation(_, _) => Ok(Fed::Wrong(TexError::MissingUnit)),
            TestStage::First(_) | TestStage::Second(_) => {
                Ok(Fed::Wrong(TexError::MissingNumber))
            }
        }
    }

    /// The value that the first of two comparands waits for. Its only error is want of memory.
    #[tactic(auto, using(crate::proofs::Lefts::needs_fewer))]
    fn give_left(&mut self, comparand: Comparand, value: &Value) -> Result<Fed<i64>, AllocError>
        requires { self.old.stage ≡ TestStage.Left comparand }
        ensures part { IfOk result (IsGivenBy rests.rest rests.held self.old value.now self.new) }
        ensures fewer { IfOk result (NeedsFewer (more_needed self.old) (more_needed self.new)) }
    {
        match self.scan.give(value)? {
            Fed::More(want) => Ok(Fed::More(want)),
            Fed::Need(wanted) => Ok(Fed::Need(wanted)),
            Fed::Done(number, 0) => Ok(self.to_relation(comparand, number)),
            Fed::Done(number, _) => match self.token.take() {
                Some(token) => Ok(self.feed_relation(comparand, number, &token)),
                None => Ok(self.to_relation(comparand, number)),
            },
            Fed::Wrong(error) => Ok(Fed::Wrong(error)),
        }
    }

    /// The value that the last one waits for. Its only error is want of memory.
    fn give_last(&mut self, judged: Judged, value: &Value) -> Result<Fed<i64>, AllocError>
        requires { self.old.stage ≡ TestStage.Last judged }
        ensures part { IfOk result (IsGivenBy rests.rest rests.held self.old value.now self.new) }
        ensures fewer { IfOk result (NeedsFewer (more_needed self.old) (more_needed self.new)) }
    {
        match self.scan.give(value)? {
            Fed::More(want) => Ok(Fed::More(want)),
            Fed::Need(kind) => Ok(Fed::Need(kind)),
            Fed::Done(number, back) => Ok(Fed::Done(judged.judgement(number), back)),
            Fed::Wrong(error) => Ok(Fed::Wrong(error)),
        }
    }

    /// What stands at a number that its number waits for, or the answer of the register.
    fn give_register(&mut self, value: &Value) -> Fed<i64>
        requires { self.old.stage ≡ TestStage.Register }
        ensures part { IsGivenBy rests.rest rests.held self.old value.now self.new result }
        ensures fewer { NeedsFewer (more_needed self.old) (more_needed self.new) result }
    {
        answered(self.quantity.give(value))
    }
}

/// A clone has read the same. Its only error is want of memory.
impl Clone for TestScan {
    ghost is_clone = { λ source copy. copy ≡ source };

    fn clone(&self) -> Result<Self, AllocError> {
        let token = match &self.token {
            Some(token) => Some(token.clone()?),
            None => None,
        };
        Ok(TestScan {
            stage: self.stage,
            scan: self.scan.clone()?,
            quantity: self.quantity.clone()?,
            token,
        })
    }
}
