//! The rests of commands, token by token.
ghost use Rattle.std.specs.Prelude.{◌≡◌, ◌≤◌, ◌+◌, ℕ, ◌∷◌, ◌++◌, [], false, List, IfOk};
ghost use Rattle.tx_seen.specs.declared.item.Item.{Item};
ghost use Rattle.tx_seen.specs.declared.item.Item.TheVariants.{Took};
ghost use Rattle.tx_seen.specs.Readings.{Reading, next};
ghost use Rattle.tx_scan.specs.GlueRests.{begun_glue};
ghost use Rattle.tx_scan.specs.Rests.{HoldsOne, IsAnswer, IsFedBy, IsGivenBehind, IsRead, kept};
ghost use Rattle.tx_scan.specs.Supplied.{NeedsFewer, NeedsNoMore};
ghost use Rattle.tx_shape.specs.declared.scans.Next.{Next as Next_what};
ghost use Rattle.tx_shape.specs.AmountRests.{LeavesFewer, amount_held, amount_needed, amount_rest, needed_behind};
ghost use Rattle.tx_shape.specs.Shapes.{shape};
ghost use Rattle.tx_shape.specs.Nexts.{next_rest, plain_rest};
ghost use Rattle.tx_shape.specs.Rests.{Begins, IsWaiting, WaitsIfNeeded, begun_at, held, needed, rest};

use crate::elastic::{math_skipped, skipped};
use crate::scans::{
    Amount, AmountScan, Next, NumberSetting, Opening, Plain, Registering, Setting, ShapeScan,
    SizeSetting, Sizing, Stage,
};
use crate::settings::page_setting;
use crate::types::{BoxContext, BoxGoal, Shaped, Shaping};
use std::alloc::{AllocError, Global};
use tx_prim::BoxKind;
use tx_scan::{FontSought, GlueScan};
use tx_seen::{Fed, Seen, TexError, Value};

impl ShapeScan {
    /// The scan of no command's rest yet. It takes no memory.
    pub fn new(alloc: Global) -> ShapeScan
        ensures { result ≡ begun_at Amount.Penalty (begun_glue false) }
    {
        ShapeScan {
            stage: Stage::Amount,
            amount: AmountScan::new(alloc),
            glue: GlueScan::new(alloc, false),
        }
    }

    /// Begins the rest of this command, in the memory that the scan has; what was read before is forgotten. The answer is what
    /// reading gives of nothing, and none where the command takes nothing.
    pub fn begin(&mut self, shaping: Shaping) -> Fed<Shaped>
        ensures { Begins (shape shaping) self.new result }
    {
        match shaping {
            Shaping::Box(kind) => {
                let opening = Opening::Box(kind, BoxContext::Append(0));
                self.on(Stage::Plain(Plain::Goal(opening)))
            }
            Shaping::From(source) => self.begin_source(source, BoxContext::Append(0)),
            Shaping::Shipout => self.on(Stage::Plain(Plain::Needed(BoxContext::Ship))),
            Shaping::SetBox => self.to_amount(Amount::Register(Registering::Set)),
            Shaping::Shift(kind) => self.to_amount(Amount::Size(Sizing::Shift(kind))),
            Shaping::Unbox(kind) => self.to_amount(Amount::Register(Registering::Unbox(kind))),
            Shaping::Penalty => self.to_amount(Amount::Penalty),
            Shaping::PrevDepth => self.on(Stage::Setting(Setting::Size(SizeSetting::Depth))),
            Shaping::Glue(form) => self.begin_glue(form),
            Shaping::Character => self.to_amount(Amount::Register(Registering::Character)),
            Shaping::Factor => self.on(Stage::Setting(Setting::Number(NumberSetting::Factor))),
            Shaping::PrevGraf => {
                self.on(Stage::Setting(Setting::Number(NumberSetting::PrevGraf)))
            }
            Shaping::ParShape => {
                self.on(Stage::Setting(Setting::Number(NumberSetting::ParShape)))
            }
            Shaping::Adjust => {
                let opening = Opening::Box(BoxKind::Vertical, BoxContext::Adjust);
                self.on(Stage::Plain(Plain::Brace(opening, BoxGoal::Natural)))
            }
            Shaping::MathCharacter => self.to_amount(Amount::Number(NumberSetting::MathCharacter)),
            Shaping::Coded(kind) => self.to_amount(Amount::Number(NumberSetting::Coded(kind))),
            Shaping::Accent => self.to_amount(Amount::Register(Registering::Accent)),
            Shaping::Center => {
                let opening = Opening::Box(BoxKind::Vertical, BoxContext::Center);
                self.on(Stage::Plain(Plain::Goal(opening)))
            }
            Shaping::MathGlue => self.begin_math_glue(),
            Shaping::Insert => self.to_amount(Amount::Register(Registering::Insert)),
            Shaping::Align => self.on(Stage::Plain(Plain::Goal(Opening::Align))),
            Shaping::DeadCycles => {
                self.on(Stage::Setting(Setting::Number(NumberSetting::DeadCycles)))
            }
            Shaping::Page(quantity) => self.on(Stage::Setting(page_setting(quantity))),
            Shaping::Open(opener) => self.on(Stage::Plain(Plain::Open(opener))),
            Shaping::FontDimen => self.to_amount(Amount::FontDimen),
            Shaping::FontInteger(kind) => self.on(Stage::Font(FontSought::Integer(kind))),
            Shaping::Family(size) => self.to_amount(Amount::Register(Registering::Family(size))),
        }
    }

    /// Takes one token, at first and after More. Its only error is want of memory.
    pub fn feed(&mut self, token: &Seen) -> Result<Fed<Shaped>, AllocError>
        ensures fed { IfOk result (IsFedBy rest held self.old token.now self.new) }
        ensures needs { IfOk result (NeedsNoMore (needed self.old) (needed self.new)) }
        ensures waits { IfOk result (WaitsIfNeeded self.new) }
    {
        match self.stage {
            Stage::Amount => self.feed_amount(token),
            Stage::Plain(plain) => Ok(self.feed_plain(plain, token)),
            Stage::Setting(setting) => self.feed_setting(setting, token),
            Stage::Font(sought) => Ok(self.feed_font(sought, token)),
            Stage::FontRoom(_, _) => Ok(Fed::Wrong(TexError::MissingNumber)),
            Stage::Glue => Ok(skipped(self.glue.feed(token)?)),
            Stage::MathGlue => Ok(math_skipped(self.glue.feed(token)?)),
            Stage::Word(opening, letters) => Ok(self.feed_word(opening, letters, token)),
        }
    }

    /// Takes the value that it needs, where this token was taken last. Its only error is want of memory.
    pub fn give(&mut self, value: &Value, behind: &Seen) -> Result<Fed<Shaped>, AllocError>
        requires { IsWaiting self.old }
        ensures given { IfOk result (IsGivenBehind rest held self.old value.now behind.now self.new) }
        ensures needs { IfOk result (NeedsFewer (needed self.old) (needed self.new)) }
        ensures waits { IfOk result (WaitsIfNeeded self.new) }
    {
        match self.stage {
            Stage::FontRoom(font, number) => Ok(self.give_room(font, number, value)),
            Stage::Amount => {
                let fed = self.amount.give(value)?;
                Ok(self.go_on(fed, behind))
            }
            Stage::Glue => Ok(skipped(self.glue.give(value, behind)?)),
            Stage::MathGlue => Ok(math_skipped(self.glue.give(value, behind)?)),
            Stage::Plain(_) | Stage::Setting(_) | Stage::Font(_) => unreachable!(),
            Stage::Word(_, _) => unreachable!(),
        }
    }

    /// A token of a number or a size, or what ends it. Its only error is want of memory.
    pub(crate) fn feed_amount(&mut self, token: &Seen) -> Result<Fed<Shaped>, AllocError>
        requires { self.old.stage ≡ Stage.Amount }
        ensures fed { IfOk result (IsFedBy rest held self.old token.now self.new) }
        ensures needs { IfOk result (NeedsNoMore (needed self.old) (needed self.new)) }
        ensures waits { IfOk result (WaitsIfNeeded self.new) }
    {
        let fed = self.amount.feed(token)?;
        Ok(self.go_on(fed, token))
    }

    /// What becomes of the scan by what that of a number or a size answers, where this token was taken last.
    #[inline(always)]
    fn go_on(&mut self, fed: Fed<Next>, token: &Seen) -> Fed<Shaped>
        requires { self.old.stage ≡ Stage.Amount }
        ensures fed { (reading : List Item → Reading Next_what) (behind : List Item) (count : ℕ) → IsAnswer amount_rest amount_held 1 reading token.now self.old.amount fed → IsRead rest held (count + 1) (λ more. next (reading more) next_rest) (behind ++ Took token.now ∷ []) self.new result }
        ensures given { (reading : List Item → Reading Next_what) (count : ℕ) → count ≤ 1 → IsRead amount_rest amount_held count reading (kept count token.now) self.old.amount fed → IsRead rest held count (λ more. next (reading more) next_rest) (kept count token.now) self.new result }
        ensures needs { (old : ℕ) → NeedsNoMore old (amount_needed self.old.amount) fed → NeedsNoMore old (needed self.new) result }
        ensures fewer { (old : ℕ) → LeavesFewer old (amount_needed self.old.amount) fed → NeedsFewer old (needed self.new) result }
        ensures waits { HoldsOne (amount_held self.old.amount) fed → WaitsIfNeeded self.new result }
    {
        match fed {
            Fed::More(want) => Fed::More(want),
            Fed::Need(kind) => Fed::Need(kind),
            Fed::Done(next, 0) => self.end(next),
            Fed::Done(next, _) => self.end_before(next, token),
            Fed::Wrong(error) => Fed::Wrong(error),
        }
    }

    /// A number or a size is whole, and this follows.
    #[inline(never)]
    fn end(&mut self, next: Next) -> Fed<Shaped>
        ensures { Begins (next_rest next) self.new result }
    {
        match next {
            Next::Part(plain) => self.on(Stage::Plain(plain)),
            Next::Font(sought) => self.on(Stage::Font(sought)),
            Next::Whole(shaped) => Fed::Done(shaped, 0),
            Next::Wrong(error) => Fed::Wrong(error),
        }
    }

    /// A number or a size is whole, and this follows, with this token.
    #[inline(never)]
    fn end_before(&mut self, next: Next, token: &Seen) -> Fed<Shaped>
        ensures reads { IsRead rest held 1 (λ more. next_rest next (Took token.now ∷ more)) (Took token.now ∷ []) self.new result }
        ensures needs { (old : ℕ) → NeedsNoMore old (needed self.new) result }
        ensures fewer { (old : ℕ) → needed_behind next 1 ≤ old → NeedsFewer old (needed self.new) result }
        ensures waits { WaitsIfNeeded self.new result }
    {
        match next {
            Next::Part(plain) => self.feed_plain(plain, token),
            Next::Font(sought) => self.feed_font(sought, token),
            Next::Whole(shaped) => Fed::Done(shaped, 1),
            Next::Wrong(error) => Fed::Wrong(error),
        }
    }

    /// A token of a part that needs no value.
    fn feed_plain(&mut self, plain: Plain, token: &Seen) -> Fed<Shaped>
        ensures { Begins (λ more. plain_rest plain (Took token.now ∷ more)) self.new result }
    {
        match plain {
            Plain::Equals(register) => self.feed_equals(register, token),
            Plain::Needed(context) => self.feed_needed(context, token),
            Plain::Goal(opening) => self.feed_goal(opening, token),
            Plain::Spread(opening) => self.feed_spread(opening, token),
            Plain::Brace(opening, goal) => self.feed_brace(opening, goal, token),
            Plain::Open(opener) => self.feed_open(opener, token),
            Plain::To(register, context) => self.feed_to(register, context, token),
            Plain::ToLetter(register, context) => self.feed_to_letter(register, context, token),
            Plain::FamilyEquals(size, family) => self.feed_family(size, family, token),
            Plain::FamilyFont(size, family) => self.feed_family_font(size, family, token),
        }
    }
}
