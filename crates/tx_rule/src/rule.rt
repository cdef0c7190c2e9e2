//! The sides and sizes of a rule, token by token (TeX: The Program, section 463).
ghost use Rattle.std.specs.Prelude.{◌≡◌, ◌<◌, ◌≤◌, ◌≤ℤ◌, ◌∷◌, [], Bool, ℕ, ℤ, pos, neg_ℤ, List, length, IfOk};
ghost use Rattle.tx_seen.specs.declared.item.Item.{Item};
ghost use Rattle.tx_seen.specs.declared.item.Item.TheVariants.{Took};
ghost use Rattle.tx_seen.specs.Readings.{Reading, next};
ghost use Rattle.tx_scan.specs.Rests.{IsFedBy, IsRead, IsGivenBehind};
ghost use Rattle.tx_scan.specs.Supplied.{NeedsFewer, NeedsNoMore};
ghost use Rattle.tx_scan.specs.Keywords.{rest as key_rest, held as key_held, IsReadOn};
ghost use Rattle.tx_rule.specs.Rules as spec;
ghost use Rattle.tx_rule.specs.Rests.{rule_rest, rule_held, rule_needed, IsNameFed, IsRuleFed, IsSizing, IsUnnamed};

use crate::scans::{RulePart, RuleScan, Side};
use std::alloc::{AllocError, Global};
use tx_node::Rule;
use tx_prim::RuleKind;
use tx_scan::{DimenScan, KeyScan, Measure};
use tx_seen::{Fed, Seen, TexError, Value, Want};

/// 0.4pt, how thick a rule is where nothing else is said.
const THICKNESS: i32 = 26_214;

/// The rule of a kind where nothing else is said.
fn plain_rule(kind: RuleKind) -> Rule
    ensures { result ≡ spec.plain_rule kind }
{
    match kind {
        RuleKind::Vertical => Rule {
            width: Some(THICKNESS),
            height: None,
            depth: None,
        },
        RuleKind::Horizontal => Rule {
            width: None,
            height: Some(THICKNESS),
            depth: Some(0),
        },
    }
}

/// The name of a side.
fn name_of(side: Side) -> &'static [u8]
    ensures { result.now ≡ spec.letters_of side }
{
    match side {
        Side::Width => b"width",
        Side::Height => b"height",
        Side::Depth => b"depth",
    }
}

/// The side whose name begins with this token.
fn side_begun(token: &Seen) -> Option<Side>
    ensures { result ≡ spec.side_begun_by token.now }
{
    if token.is_key(b'w') {
        Some(Side::Width)
    } else if token.is_key(b'h') {
        Some(Side::Height)
    } else if token.is_key(b'd') {
        Some(Side::Depth)
    } else {
        None
    }
}

/// The rule with this size for one of its sides, in sp.
fn with_side(rule: Rule, side: Side, size: i32) -> Rule
    ensures { result ≡ spec.with_side rule side size }
{
    match side {
        Side::Width => Rule {
            width: Some(size),
            ..rule
        },
        Side::Height => Rule {
            height: Some(size),
            ..rule
        },
        Side::Depth => Rule {
            depth: Some(size),
            ..rule
        },
    }
}

impl RuleScan {
    /// The scan of a rule of no kind yet. It takes no memory.
    pub fn new(alloc: Global) -> RuleScan
        ensures { result.part ≡ RulePart.Start }
    {
        RuleScan {
            rule: plain_rule(RuleKind::Vertical),
            part: RulePart::Start,
            size: DimenScan::new(alloc, false, false),
        }
    }

    /// A rule is begun of which no side is read.
    pub fn begin(&mut self, kind: RuleKind)
        ensures rule { self.new.rule ≡ spec.plain_rule kind }
        ensures part { self.new.part ≡ RulePart.Start }
    {
        self.rule = plain_rule(kind);
        self.part = RulePart::Start;
    }

    /// Takes one token. Its only error is want of memory.
    pub fn feed(&mut self, token: &Seen) -> Result<Fed<Rule>, AllocError>
        requires { IsUnnamed self.old.part }
        ensures fed { IfOk result (IsFedBy rule_rest rule_held self.old token.now self.new) }
        ensures needed { IfOk result (NeedsNoMore (rule_needed self.old) (rule_needed self.new)) }
        ensures on { IfOk result (IsRuleFed self.new) }
    {
        match self.part {
            RulePart::Start => Ok(self.feed_start(token)),
            RulePart::Name(side, scan) => Ok(self.feed_name(side, scan, token)),
            RulePart::Size(side) => self.feed_size(side, token),
        }
    }

    /// Takes the value that the size of a side needs, where this token was taken last. Its only error is want of memory.
    pub fn give(&mut self, value: &Value, behind: &Seen) -> Result<Fed<Rule>, AllocError>
        requires part { IsSizing self.old.part }
        requires few { rule_held self.old ≤ 1 }
        ensures given { IfOk result (IsGivenBehind rule_rest rule_held self.old value.now behind.now self.new) }
        ensures fewer { IfOk result (NeedsFewer (rule_needed self.old) (rule_needed self.new)) }
        ensures on { IfOk result (IsRuleFed self.new) }
    {
        match self.part {
            RulePart::Start | RulePart::Name(_, _) => unreachable!(),
            RulePart::Size(side) => self.give_size(side, value, behind),
        }
    }

    /// A space, the first letter of a side's name, or what stands behind the rule.
    fn feed_start(&mut self, token: &Seen) -> Fed<Rule>
        requires { self.old.part ≡ RulePart.Start }
        ensures fed { IsRead rule_rest rule_held 1 (λ more. spec.rule_sides self.old.rule (Took token.now ∷ more)) (Took token.now ∷ []) self.new result }
        ensures fewer { NeedsFewer 0 (rule_needed self.new) result }
        ensures on { IsRuleFed self.new result }
    {
        if token.is_undefined() {
            return Fed::Wrong(TexError::Undefined);
        }
        if token.is_space() {
            return Fed::More(Want::Expanded);
        }
        match side_begun(token) {
            None => Fed::Done(self.rule, 1),
            Some(side) => self.feed_name(side, KeyScan::new(), token),
        }
    }

    /// A letter of the name of this side, of which so much is read.
    fn feed_name(&mut self, side: Side, scan: KeyScan, token: &Seen) -> Fed<Rule>
        requires { scan.read < length (spec.letters_of side) }
        ensures fed { IsNameFed side scan self.old.rule token.now self.new result }
        ensures fewer { NeedsFewer 0 (rule_needed self.new) result }
        ensures on { IsRuleFed self.new result }
    {
        let mut scan = scan;
        let fed = scan.feed(name_of(side), token);
        self.part = RulePart::Name(side, scan);
        self.named(side, fed)
    }

    /// What becomes of the rule by what the scan of this side's name answers.
    fn named(&mut self, side: Side, fed: Fed<bool>) -> Fed<Rule>
        ensures fed { (scan : KeyScan) (most : ℕ) (reading : List Item → Reading Bool) (tokens : List Item) → self.old.part ≡ RulePart.Name side scan → IsRead (key_rest (spec.letters_of side)) key_held most reading tokens scan fed → IsReadOn (spec.letters_of side) scan fed → IsRead rule_rest rule_held most (λ more. next (next (reading more) (spec.side_if side)) (spec.side_or_end spec.rule_sides self.old.rule)) tokens self.new result }
        ensures fewer { (scan : KeyScan) → self.old.part ≡ RulePart.Name side scan → IsReadOn (spec.letters_of side) scan fed → NeedsFewer 0 (rule_needed self.new) result }
        ensures on { (scan : KeyScan) → self.old.part ≡ RulePart.Name side scan → IsReadOn (spec.letters_of side) scan fed → IsRuleFed self.new result }
    {
        match fed {
            Fed::More(want) => Fed::More(want),
            Fed::Need(kind) => Fed::Need(kind),
            Fed::Done(true, _) => {
                self.size.restart(false, false);
                self.part = RulePart::Size(side);
                Fed::More(Want::Expanded)
            }
            Fed::Done(false, back) => Fed::Done(self.rule, back),
            Fed::Wrong(error) => Fed::Wrong(error),
        }
    }

    /// The size of this side, or what ends it. Its only error is want of memory.
    fn feed_size(&mut self, side: Side, token: &Seen) -> Result<Fed<Rule>, AllocError>
        requires { self.old.part ≡ RulePart.Size side }
        ensures fed { IfOk result (IsFedBy rule_rest rule_held self.old token.now self.new) }
        ensures needed { IfOk result (NeedsNoMore (rule_needed self.old) (rule_needed self.new)) }
        ensures on { IfOk result (IsRuleFed self.new) }
    {
        match self.size.feed(token)? {
            Fed::More(want) => Ok(Fed::More(want)),
            Fed::Need(kind) => Ok(Fed::Need(kind)),
            Fed::Done(measure, 0) => Ok(self.sized(side, measure)),
            Fed::Done(measure, _) => Ok(self.sized_before(side, measure, token)),
            Fed::Wrong(error) => Ok(Fed::Wrong(error)),
        }
    }

    /// The value that the size of this side waits for. Its only error is want of memory.
    fn give_size(
        &mut self,
        side: Side,
        value: &Value,
        behind: &Seen,
    ) -> Result<Fed<Rule>, AllocError>
        requires part { self.old.part ≡ RulePart.Size side }
        requires few { rule_held self.old ≤ 1 }
        ensures given { IfOk result (IsGivenBehind rule_rest rule_held self.old value.now behind.now self.new) }
        ensures fewer { IfOk result (NeedsFewer (rule_needed self.old) (rule_needed self.new)) }
        ensures on { IfOk result (IsRuleFed self.new) }
    {
        match self.size.give(value)? {
            Fed::More(want) => Ok(Fed::More(want)),
            Fed::Need(kind) => Ok(Fed::Need(kind)),
            Fed::Done(measure, 0) => Ok(self.sized(side, measure)),
            Fed::Done(measure, _) => Ok(self.sized_before(side, measure, behind)),
            Fed::Wrong(error) => Ok(Fed::Wrong(error)),
        }
    }

    /// The size of this side is whole; another side may be named.
    fn sized(&mut self, side: Side, measure: Measure) -> Fed<Rule>
        requires low { neg_ℤ (pos 1073741823) ≤ℤ measure.size }
        requires high { measure.size ≤ℤ pos 1073741823 }
        ensures rule { self.new.rule ≡ spec.with_side self.old.rule side measure.size }
        ensures part { self.new.part ≡ RulePart.Start }
        ensures answer { result ≡ Fed.More Want.Expanded }
    {
        self.rule = with_side(self.rule, side, measure.size as i32);
        self.part = RulePart::Start;
        Fed::More(Want::Expanded)
    }

    /// The size of this side is whole, and this token stands behind it.
    fn sized_before(&mut self, side: Side, measure: Measure, token: &Seen) -> Fed<Rule>
        requires low { neg_ℤ (pos 1073741823) ≤ℤ measure.size }
        requires high { measure.size ≤ℤ pos 1073741823 }
        ensures fed { IsRead rule_rest rule_held 1 (λ more. spec.rule_sides (spec.with_side self.old.rule side measure.size) (Took token.now ∷ more)) (Took token.now ∷ []) self.new result }
        ensures fewer { NeedsFewer 0 (rule_needed self.new) result }
        ensures on { IsRuleFed self.new result }
    {
        self.rule = with_side(self.rule, side, measure.size as i32);
        self.part = RulePart::Start;
        self.feed_start(token)
    }
}
