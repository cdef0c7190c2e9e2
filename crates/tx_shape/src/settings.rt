//! What is set behind an optional `=`, and the fonts of which it is told (TeX: The Program, sections 1242, 1243 and 1253).
ghost use Rattle.std.specs.Prelude.{◌≡◌, ◌∷◌, [], IfOk};
ghost use Rattle.tx_seen.specs.declared.item.Item.TheVariants.{Gave, Took};
ghost use Rattle.tx_shape.specs.Settings as settings;
ghost use Rattle.tx_scan.specs.Rests.{IsRead};
ghost use Rattle.tx_scan.specs.Supplied.{NeedsNoMore};
ghost use Rattle.tx_shape.specs.Rests.{held, needed, rest, Begins, BeginsSetting, WaitsIfNeeded};

use crate::scans::{Amount, NumberSetting, Plain, Setting, ShapeScan, SizeSetting, Sizing, Stage};
use crate::types::Shaped;
use std::alloc::AllocError;
use tx_prim::{MathSize, PageQuantity};
use tx_scan::{EqualsScan, FontScan, FontSought};
use tx_seen::{Fed, FontName, Kind, Place, Seen, TexError, Value};

/// The number or the size that is set.
fn amount_of(setting: Setting) -> Amount
    ensures { result ≡ settings.amount_of setting }
{
    match setting {
        Setting::Size(size) => Amount::Size(Sizing::Set(size)),
        Setting::Number(number) => Amount::Number(number),
    }
}

/// What is set of the page: \insertpenalties is a number, the others are sizes.
pub(crate) fn page_setting(quantity: PageQuantity) -> Setting
    ensures { result ≡ settings.page_setting quantity }
{
    match quantity {
        PageQuantity::InsertPenalties => Setting::Number(NumberSetting::Page(quantity)),
        PageQuantity::Goal | PageQuantity::Total | PageQuantity::Depth => {
            Setting::Size(SizeSetting::Page(quantity))
        }
        PageQuantity::Stretch | PageQuantity::FilStretch | PageQuantity::FillStretch => {
            Setting::Size(SizeSetting::Page(quantity))
        }
        PageQuantity::FilllStretch | PageQuantity::Shrink => {
            Setting::Size(SizeSetting::Page(quantity))
        }
    }
}

impl ShapeScan {
    /// An optional `=` before what is set, or the first token behind it. Its only error is want of memory.
    #[inline(never)]
    pub(crate) fn feed_setting(
        &mut self,
        setting: Setting,
        token: &Seen,
    ) -> Result<Fed<Shaped>, AllocError>
        ensures { IfOk result (BeginsSetting (λ more. settings.setting setting (Took token.now ∷ more)) token.now self.new) }
    {
        match EqualsScan::new().feed(token) {
            Fed::More(want) => {
                self.stage = Stage::Setting(setting);
                Ok(Fed::More(want))
            }
            Fed::Need(kind) => Ok(Fed::Need(kind)),
            Fed::Done(_, 0) => Ok(self.to_amount(amount_of(setting))),
            Fed::Done(_, _) => self.begin_set(setting, token),
            Fed::Wrong(error) => Ok(Fed::Wrong(error)),
        }
    }

    /// The first token of what is set. Its only error is want of memory.
    fn begin_set(&mut self, setting: Setting, token: &Seen) -> Result<Fed<Shaped>, AllocError>
        ensures { IfOk result (BeginsSetting (λ more. settings.set setting (Took token.now ∷ more)) token.now self.new) }
    {
        self.stage = Stage::Amount;
        self.amount.begin(amount_of(setting));
        self.feed_amount(token)
    }

    /// A space before the font that is needed, or the font.
    #[inline(never)]
    pub(crate) fn feed_font(&mut self, sought: FontSought, token: &Seen) -> Fed<Shaped>
        ensures { BeginsSetting (λ more. settings.font_setting sought (Took token.now ∷ more)) token.now self.new result }
    {
        match FontScan::new().feed(token) {
            Fed::More(want) => {
                self.stage = Stage::Font(sought);
                Fed::More(want)
            }
            Fed::Need(kind) => Fed::Need(kind),
            Fed::Done(font, _) => self.to_setting(sought, font),
            Fed::Wrong(error) => Fed::Wrong(error),
        }
    }

    /// An optional `=` before the font of a family, or the first token behind it.
    pub(crate) fn feed_family(&mut self, size: MathSize, family: u8, token: &Seen) -> Fed<Shaped>
        ensures { Begins (λ more. settings.family_setting size family (Took token.now ∷ more)) self.new result }
    {
        match EqualsScan::new().feed(token) {
            Fed::More(want) => {
                self.stage = Stage::Plain(Plain::FamilyEquals(size, family));
                Fed::More(want)
            }
            Fed::Need(kind) => Fed::Need(kind),
            Fed::Done(_, 0) => self.on(Stage::Plain(Plain::FamilyFont(size, family))),
            Fed::Done(_, _) => self.feed_family_font(size, family, token),
            Fed::Wrong(error) => Fed::Wrong(error),
        }
    }

    /// A space before the font of a family, or the font.
    pub(crate) fn feed_family_font(
        &mut self,
        size: MathSize,
        family: u8,
        token: &Seen,
    ) -> Fed<Shaped>
        ensures { Begins (λ more. settings.family_font size family (Took token.now ∷ more)) self.new result }
    {
        match FontScan::new().feed(token) {
            Fed::More(want) => {
                self.stage = Stage::Plain(Plain::FamilyFont(size, family));
                Fed::More(want)
            }
            Fed::Need(kind) => Fed::Need(kind),
            Fed::Done(font, back) => Fed::Done(Shaped::SetFamily(size, family, font), back),
            Fed::Wrong(error) => Fed::Wrong(error),
        }
    }

    /// What is set of a font: whether it has such a parameter is asked first.
    fn to_setting(&mut self, sought: FontSought, font: FontName) -> Fed<Shaped>
        ensures reads { IsRead rest held 0 (settings.set_of_font sought font) [] self.new result }
        ensures needs { NeedsNoMore 0 (needed self.new) result }
        ensures waits { WaitsIfNeeded self.new result }
    {
        match sought {
            FontSought::Dimen(number) => {
                self.stage = Stage::FontRoom(font, number);
                Fed::Need(Kind::Quantity(Place::FontDimen(font, number)))
            }
            FontSought::Integer(kind) => {
                let number = NumberSetting::FontInteger(kind, font);
                self.on(Stage::Setting(Setting::Number(number)))
            }
        }
    }

    /// What a font has for its parameter of this number.
    pub(crate) fn give_room(&mut self, font: FontName, number: u16, value: &Value) -> Fed<Shaped>
        ensures { Begins (settings.in_room font number (Gave value.now)) self.new result }
    {
        match value {
            Value::OutOfRange => Fed::Wrong(TexError::NumberOutOfRange),
            Value::Int(_) | Value::Dimen(_) | Value::Glue(_) | Value::Muglue(_) => {
                let size = SizeSetting::FontDimen(font, number);
                self.on(Stage::Setting(Setting::Size(size)))
            }
            Value::Flag(_) | Value::Magnification(_) | Value::Absent => {
                Fed::Wrong(TexError::MissingNumber)
            }
        }
    }
}
