//! Glue, token by token (TeX: The Program, section 461).
ghost use Rattle.std.specs.Prelude.{◌≡◌, ◌≤◌, ◌<◌, ◌≤ℤ◌, ◌+◌, ◌∷◌, ◌++◌, [], Bool, ℕ, pos, neg_ℤ, List, length, IfOk};
ghost use Rattle.tx_seen.specs.declared.item.Item.{Item};
ghost use Rattle.tx_seen.specs.declared.item.Item.TheVariants.{Took, Gave};
ghost use Rattle.tx_seen.specs.Readings.{Answers, last};
ghost use Rattle.tx_scan.specs.Glues as spec;
ghost use Rattle.tx_scan.specs.Mapped.{fed_if, settled};
ghost use Rattle.tx_scan.specs.declared.scans.Beginning.TheVariants as begin;
ghost use Rattle.tx_scan.specs.Rests.{IsFedBy, IsGivenBehind, IsRead};
ghost use Rattle.tx_scan.specs.Supplied.{NeedsFewer, NeedsNoMore};
ghost use Rattle.tx_scan.specs.GlueRests.{HasTaken, IsBegun, IsSizing, IsWaiting, begun_glue, behind_size, elastic, held, minus_rest, more_needed, plus_rest, rest};
ghost use Rattle.tx_scan.specs.GlueRests as rests;

use crate::beginnings::beginning;
use crate::scans::{
    Beginning, DimenScan, GluePart, GlueScan, GlueStage, KeyScan, Measure, MinusScan, Order,
    PlusScan, Sought,
};
use std::alloc::{AllocError, Global};
use tx_num::Glue;
use tx_prim::Numbered;
use tx_seen::{Fed, Place, Seen, TexError, Value, Want};

impl GlueScan {
    /// The scan of glue of which nothing is read: in mu alone or in all other units. It takes no memory.
    pub fn new(alloc: Global, mu: bool) -> GlueScan
        ensures scan { result ≡ begun_glue mu }
        ensures taken { HasTaken mu result [] }
    {
        GlueScan {
            mu,
            stage: GlueStage::Signs(false),
            size: DimenScan::new(alloc, mu, false),
            glue: Glue::zero(),
        }
    }

    /// Forgets what was read, in the memory that it has.
    pub fn restart(&mut self, mu: bool)
        ensures scan { self.new ≡ begun_glue mu }
        ensures taken { HasTaken mu self.new [] }
    {
        self.mu = mu;
        self.stage = GlueStage::Signs(false);
        self.size.restart(mu, false);
        self.glue = Glue::zero();
    }

    /// Takes one token, at first and after More. The answer is what reading gives of all that was taken. Its only error is
    /// want of memory.
    pub fn feed(&mut self, token: &Seen) -> Result<Fed<Glue>, AllocError>
        ensures answer { (mu : Bool) → (taken : List Item) → HasTaken mu self.old taken → IfOk result (Answers (spec.glue mu) (HasTaken mu) (taken ++ Took token.now ∷ []) self.new) }
        ensures part { IfOk result (IsFedBy rest held self.old token.now self.new) }
        ensures needed { IfOk result (NeedsNoMore (more_needed self.old) (more_needed self.new)) }
        ensures waits { IfOk result (IsWaiting self.new) }
    {
        self.behind(token)
    }

    /// What it is behind one more token. Its only error is want of memory.
    fn behind(&mut self, token: &Seen) -> Result<Fed<Glue>, AllocError>
        ensures part { IfOk result (IsFedBy rest held self.old token.now self.new) }
        ensures needed { IfOk result (NeedsNoMore (more_needed self.old) (more_needed self.new)) }
        ensures waits { IfOk result (IsWaiting self.new) }
    {
        match self.stage {
            GlueStage::Signs(negative) => self.feed_sign(negative, token),
            GlueStage::Quantity(negative) => {
                let fed = self.size.quantity.feed(token)?;
                Ok(self.internal(negative, fed))
            }
            GlueStage::Size(part) => self.feed_size(part, token),
            GlueStage::Plus(plus) => Ok(self.feed_plus(plus, token)),
            GlueStage::Minus(minus) => Ok(self.feed_minus(minus, token)),
        }
    }

    /// Takes the value that a size needs, where this token was taken last. The answer is what reading gives of all that was
    /// taken. Its only error is want of memory.
    pub fn give(&mut self, value: &Value, behind: &Seen) -> Result<Fed<Glue>, AllocError>
        requires sizing { IsSizing self.old.stage }
        requires few { held self.old ≤ 1 }
        ensures answer { (mu : Bool) → (taken : List Item) → HasTaken mu self.old taken → last 1 taken ≡ Took behind.now ∷ [] → IfOk result (Answers (spec.glue mu) (HasTaken mu) (taken ++ Gave value.now ∷ []) self.new) }
        ensures given { IfOk result (IsGivenBehind rest held self.old value.now behind.now self.new) }
        ensures fewer { IfOk result (NeedsFewer (more_needed self.old) (more_needed self.new)) }
        ensures waits { IfOk result (IsWaiting self.new) }
    {
        self.behind_value(value, behind)
    }

    /// What it is behind a value. Its only error is want of memory.
    fn behind_value(&mut self, value: &Value, behind: &Seen) -> Result<Fed<Glue>, AllocError>
        requires sizing { IsSizing self.old.stage }
        requires few { held self.old ≤ 1 }
        ensures given { IfOk result (IsGivenBehind rest held self.old value.now behind.now self.new) }
        ensures fewer { IfOk result (NeedsFewer (more_needed self.old) (more_needed self.new)) }
        ensures waits { IfOk result (IsWaiting self.new) }
    {
        match self.stage {
            GlueStage::Quantity(negative) => {
                let fed = self.size.quantity.give(value);
                Ok(self.internal(negative, fed))
            }
            GlueStage::Size(part) => self.give_size(part, value, behind),
            GlueStage::Signs(_) | GlueStage::Plus(_) | GlueStage::Minus(_) => unreachable!(),
        }
    }

    /// Signs and spaces, or what begins the glue. Its only error is want of memory.
    #[inline(never)]
    fn feed_sign(&mut self, negative: bool, token: &Seen) -> Result<Fed<Glue>, AllocError>
        requires { self.old.stage ≡ GlueStage.Signs negative }
        ensures part { IfOk result (IsFedBy rest held self.old token.now self.new) }
        ensures needed { IfOk result (NeedsNoMore (more_needed self.old) (more_needed self.new)) }
        ensures waits { IfOk result (IsWaiting self.new) }
    {
        match beginning(token) {
            Beginning::Plus => Ok(Fed::More(Want::Expanded)),
            Beginning::Minus => Ok(self.on(GlueStage::Signs(!negative))),
            Beginning::At(place) => self.begin_at(negative, place, token),
            Beginning::Numbered(kind) => self.begin_behind(negative, kind, token),
            Beginning::Digit(_) => self.begin_width(negative, token),
            Beginning::Digits(_) => self.begin_width(negative, token),
            Beginning::Character => self.begin_width(negative, token),
            Beginning::Point => self.begin_width(negative, token),
            Beginning::Number(_) => self.begin_width(negative, token),
            Beginning::FontDimen => self.begin_width(negative, token),
            Beginning::FontInteger(_) => self.begin_width(negative, token),
            Beginning::Nothing(_) => self.begin_width(negative, token),
        }
    }

    /// What stands at a place: glue, or the width. Its only error is want of memory.
    #[inline(never)]
    fn begin_at(
        &mut self,
        negative: bool,
        place: Place,
        token: &Seen,
    ) -> Result<Fed<Glue>, AllocError>
        ensures fed { IfOk result (IsBegun self.old.mu negative token.now (begin.At place) self.new) }
        ensures needed { IfOk result (NeedsNoMore 0 (more_needed self.new)) }
        ensures waits { IfOk result (IsWaiting self.new) }
    {
        if !is_elastic(&place) {
            return self.begin_width(negative, token);
        }
        self.stage = GlueStage::Quantity(negative);
        let fed = self.size.quantity.begin_at(place);
        Ok(self.internal(negative, fed))
    }

    /// What stands at a number of this kind, which follows: glue, or the width. Its only error is want of memory.
    #[inline(never)]
    fn begin_behind(
        &mut self,
        negative: bool,
        kind: Numbered,
        token: &Seen,
    ) -> Result<Fed<Glue>, AllocError>
        ensures fed { IfOk result (IsBegun self.old.mu negative token.now (begin.Numbered kind) self.new) }
        ensures needed { IfOk result (NeedsNoMore 0 (more_needed self.new)) }
        ensures waits { IfOk result (IsWaiting self.new) }
    {
        if !is_elastic(&Place::numbered(kind, 0)) {
            return self.begin_width(negative, token);
        }
        self.stage = GlueStage::Quantity(negative);
        let fed = self.size.quantity.begin_behind(Sought::Numbered(kind));
        Ok(self.internal(negative, fed))
    }

    /// The first token of a width behind its signs. Its only error is want of memory.
    fn begin_width(&mut self, negative: bool, token: &Seen) -> Result<Fed<Glue>, AllocError>
        ensures fed { IfOk result (IsRead rest held 1 (λ more. spec.told_glue self.old.mu negative (Took token.now ∷ more)) (Took token.now ∷ []) self.new) }
        ensures needed { IfOk result (NeedsNoMore 0 (more_needed self.new)) }
        ensures waits { IfOk result (IsWaiting self.new) }
    {
        self.size.restart_behind(self.mu, false, negative);
        self.stage = GlueStage::Size(GluePart::Width);
        self.feed_size(GluePart::Width, token)
    }

    /// What becomes of the glue by what the scan of internal glue answers; it has to be told in mu exactly where this is.
    #[inline(never)]
    fn internal(&self, negative: bool, fed: Fed<Value>) -> Fed<Glue>
        ensures { result ≡ settled (spec.internal self.now.mu negative) fed }
    {
        match fed {
            Fed::More(want) => Fed::More(want),
            Fed::Need(kind) => Fed::Need(kind),
            Fed::Done(value, back) => self.glue_in(negative, &value, back),
            Fed::Wrong(error) => Fed::Wrong(error),
        }
    }

    /// The glue that such a value is, where so many tokens are given back.
    fn glue_in(&self, negative: bool, value: &Value, back: usize) -> Fed<Glue>
        ensures { result ≡ fed_if (spec.internal self.now.mu negative value.now) back }
    {
        match value {
            Value::Glue(glue) => {
                if self.mu {
                    return Fed::Wrong(TexError::MissingUnit);
                }
                Fed::Done(signed_glue(negative, *glue), back)
            }
            Value::Muglue(glue) => {
                if self.mu {
                    return Fed::Done(signed_glue(negative, *glue), back);
                }
                Fed::Wrong(TexError::MissingUnit)
            }
            Value::Int(_) | Value::Dimen(_) | Value::Flag(_) => Fed::Wrong(TexError::MissingNumber),
            Value::Magnification(_) | Value::Absent | Value::OutOfRange => {
                Fed::Wrong(TexError::MissingNumber)
            }
        }
    }

    /// A size, or what ends it. Its only error is want of memory.
    fn feed_size(&mut self, part: GluePart, token: &Seen) -> Result<Fed<Glue>, AllocError>
        requires { self.old.stage ≡ GlueStage.Size part }
        ensures part { IfOk result (IsFedBy rest held self.old token.now self.new) }
        ensures needed { IfOk result (NeedsNoMore (more_needed self.old) (more_needed self.new)) }
        ensures waits { IfOk result (IsWaiting self.new) }
    {
        match self.size.feed(token)? {
            Fed::More(want) => Ok(Fed::More(want)),
            Fed::Need(kind) => Ok(Fed::Need(kind)),
            Fed::Done(measure, 0) => Ok(self.sized(part, measure)),
            Fed::Done(measure, _) => Ok(self.sized_before(part, measure, token)),
            Fed::Wrong(error) => Ok(Fed::Wrong(error)),
        }
    }

    /// The value that a size waits for. Its only error is want of memory.
    fn give_size(
        &mut self,
        part: GluePart,
        value: &Value,
        behind: &Seen,
    ) -> Result<Fed<Glue>, AllocError>
        requires part { self.old.stage ≡ GlueStage.Size part }
        requires few { held self.old ≤ 1 }
        ensures given { IfOk result (IsGivenBehind rest held self.old value.now behind.now self.new) }
        ensures fewer { IfOk result (NeedsFewer (more_needed self.old) (more_needed self.new)) }
        ensures waits { IfOk result (IsWaiting self.new) }
    {
        match self.size.give(value)? {
            Fed::More(want) => Ok(Fed::More(want)),
            Fed::Need(kind) => Ok(Fed::Need(kind)),
            Fed::Done(measure, 0) => Ok(self.sized(part, measure)),
            Fed::Done(measure, _) => Ok(self.sized_before(part, measure, behind)),
            Fed::Wrong(error) => Ok(Fed::Wrong(error)),
        }
    }

    /// A size is whole; a keyword may follow.
    fn sized(&mut self, part: GluePart, measure: Measure) -> Fed<Glue>
        requires low { neg_ℤ (pos 1073741823) ≤ℤ measure.size }
        requires high { measure.size ≤ℤ pos 1073741823 }
        ensures fed { IsRead rest held 0 (λ more. behind_size part self.old.mu self.old.glue measure more) [] self.new result }
        ensures fewer { NeedsFewer 0 (more_needed self.new) result }
    {
        self.glue = with_size(part, self.glue, measure);
        match part {
            GluePart::Width => self.on(GlueStage::Plus(PlusScan { read: 0, held: 0 })),
            GluePart::Stretch => self.on(GlueStage::Minus(MinusScan { read: 0 })),
            GluePart::Shrink => Fed::Done(self.glue, 0),
        }
    }

    /// A size is whole, and this token stands behind it.
    fn sized_before(&mut self, part: GluePart, measure: Measure, token: &Seen) -> Fed<Glue>
        requires low { neg_ℤ (pos 1073741823) ≤ℤ measure.size }
        requires high { measure.size ≤ℤ pos 1073741823 }
        ensures fed { IsRead rest held 1 (λ more. behind_size part self.old.mu self.old.glue measure (Took token.now ∷ more)) (Took token.now ∷ []) self.new result }
        ensures fewer { NeedsFewer 0 (more_needed self.new) result }
    {
        self.glue = with_size(part, self.glue, measure);
        match part {
            GluePart::Width => self.feed_plus(PlusScan { read: 0, held: 0 }, token),
            GluePart::Stretch => self.feed_minus(MinusScan { read: 0 }, token),
            GluePart::Shrink => Fed::Done(self.glue, 1),
        }
    }

    /// A letter of `plus`, of which so much is read, or what stands in its place.
    #[inline(never)]
    fn feed_plus(&mut self, plus: PlusScan, token: &Seen) -> Fed<Glue>
        ensures fed { (behind : List Item) → length behind ≤ plus.held → IsRead rest held (plus.held + 1) (λ more. plus_rest self.old.mu self.old.glue plus.held plus.read behind (Took token.now) more) (behind ++ Took token.now ∷ []) self.new result }
        ensures fewer { NeedsFewer 0 (more_needed self.new) result }
    {
        let mut key = KeyScan { read: plus.read };
        match key.feed(b"plus", token) {
            Fed::More(want) => {
                let held = held_on(plus.held, key.read, token);
                self.stage = GlueStage::Plus(plus_read(key.read, held));
                Fed::More(want)
            }
            Fed::Need(kind) => Fed::Need(kind),
            Fed::Done(true, _) => self.begin_size(GluePart::Stretch),
            Fed::Done(false, _) => {
                if plus.held == 0 {
                    self.feed_minus(MinusScan { read: 0 }, token)
                } else {
                    Fed::Done(self.glue, plus.held + 1)
                }
            }
            Fed::Wrong(error) => Fed::Wrong(error),
        }
    }

    /// A letter of `minus`, of which so much is read, or what stands in its place.
    #[inline(never)]
    fn feed_minus(&mut self, minus: MinusScan, token: &Seen) -> Fed<Glue>
        ensures fed { (behind : List Item) → length behind ≤ minus.read → IsRead rest held (minus.read + 1) (λ more. minus_rest self.old.mu self.old.glue minus.read behind (Took token.now) more) (behind ++ Took token.now ∷ []) self.new result }
        ensures fewer { NeedsFewer 0 (more_needed self.new) result }
    {
        let mut key = KeyScan { read: minus.read };
        match key.feed(b"minus", token) {
            Fed::More(want) => {
                self.stage = GlueStage::Minus(minus_read(key.read));
                Fed::More(want)
            }
            Fed::Need(kind) => Fed::Need(kind),
            Fed::Done(true, _) => self.begin_size(GluePart::Shrink),
            Fed::Done(false, back) => Fed::Done(self.glue, back),
            Fed::Wrong(error) => Fed::Wrong(error),
        }
    }

    /// The size behind a keyword comes next.
    fn begin_size(&mut self, part: GluePart) -> Fed<Glue>
        ensures fed { IsRead rest held 0 (λ more. elastic part self.old.mu self.old.glue more) [] self.new result }
        ensures fewer { NeedsFewer 0 (more_needed self.new) result }
    {
        self.size.restart(self.mu, true);
        self.on(GlueStage::Size(part))
    }

    /// The scan goes on with this stage, for which the next token is expanded.
    fn on(&mut self, stage: GlueStage) -> Fed<Glue>
        ensures scan { self.new ≡ record self.old { stage = stage } }
        ensures answer { result ≡ Fed.More Want.Expanded }
    {
        self.stage = stage;
        Fed::More(Want::Expanded)
    }
}

/// Whether glue stands at a place, told in mu or not.
fn is_elastic(place: &Place) -> bool
    ensures { result ≡ spec.is_elastic place.now }
{
    place.is_glue() || place.is_muglue()
}

/// Glue with its sign.
fn signed_glue(negative: bool, glue: Glue) -> Glue
    ensures { result ≡ spec.signed_glue negative glue }
{
    if negative { glue.negated() } else { glue }
}

/// So many letters of `plus` are read, and so many of their tokens held.
fn plus_read(read: usize, held: usize) -> PlusScan
    requires within { read < 4 }
    requires few { held ≤ read }
    ensures read { result.read ≡ read }
    ensures held { result.held ≡ held }
{
    PlusScan { read, held }
}

/// So many letters of `minus` are read.
fn minus_read(read: usize) -> MinusScan
    requires { read < 5 }
    ensures { result.read ≡ read }
{
    MinusScan { read }
}

/// How many tokens of `plus` are held, behind one letter more, of which so many were, where this is that letter and so many are
/// read.
fn held_on(held: usize, read: usize, token: &Seen) -> usize
    requires { held ≤ 4 }
    ensures { result ≡ rests.held_on held read token.now }
{
    if held > 0 {
        return held + 1;
    }
    if read == 0 {
        return 0;
    }
    if token.is_space() { 0 } else { 1 }
}

/// The number of an order.
fn number_of(order: Order) -> u8
    ensures value { result ≡ spec.number_of order }
    ensures bound { result ≤ 3 }
{
    match order {
        Order::Normal => 0,
        Order::Fil => 1,
        Order::Fill => 2,
        Order::Filll => 3,
    }
}

/// The glue with this for one of its sizes; a width begins it.
fn with_size(part: GluePart, glue: Glue, measure: Measure) -> Glue
    requires low { neg_ℤ (pos 1073741823) ≤ℤ measure.size }
    requires high { measure.size ≤ℤ pos 1073741823 }
    ensures { result ≡ spec.with_size part glue measure }
{
    match part {
        GluePart::Width => Glue::new(measure.size, 0, 0, 0, 0),
        GluePart::Stretch => Glue::new(
            glue.width(),
            measure.size,
            number_of(measure.order),
            glue.shrink(),
            glue.shrink_order(),
        ),
        GluePart::Shrink => Glue::new(
            glue.width(),
            glue.stretch(),
            glue.stretch_order(),
            measure.size,
            number_of(measure.order),
        ),
    }
}
