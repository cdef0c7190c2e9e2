//! What \font takes behind the name that it defines: an optional `=`, the name of a file, and perhaps a size (TeX: The Program,
//! sections 1257 and 1258).
ghost use Rattle.std.specs.Prelude.{◌≡◌, ◌≤◌, ◌+◌, ◌∷◌, ◌++◌, [], List, true, codes, length, pos, ◌≤ℤ◌, IfOk, IsTrue};
ghost use Rattle.tx_seen.specs.declared.item.Item.{Item};
ghost use Rattle.tx_seen.specs.declared.seen.Seen.{Seen as Any_seen};
ghost use Rattle.tx_seen.specs.declared.item.Item.TheVariants.{Took};
ghost use Rattle.tx_seen.specs.Readings.{next};
ghost use Rattle.tx_scan.specs.Keywords as words;
ghost use Rattle.tx_scan.specs.Mapped.{settled};
ghost use Rattle.tx_scan.specs.Rests.{IsFedBy, IsGivenBehind, IsRead};
ghost use Rattle.tx_scan.specs.Supplied.{NeedsFewer, NeedsNoMore};
ghost use Rattle.tx_shape.specs.Loading as spec;
ghost use Rattle.tx_shape.specs.LoadRests.{begun_load, held, letter_rest, needed, rest, BeginsLoad, IsWaiting, WaitsIfNeeded};

use crate::types::{AskedSize, FontAsked};
use std::alloc::{AllocError, Global};
use tx_bytes::Bytes;
use tx_scan::{DimenScan, EqualsScan, FileNameScan, IntScan, KeyScan, Measure};
use tx_seen::{Fed, Place, Seen, TexError, Value, Want};
use tx_tfm::Size;

/// The least size that is too large for a font, 2048pt, in sp.
const TOO_LARGE: i64 = 134_217_728;

/// The greatest thousandth part of its design size at which a font is used.
const MOST_SCALED: i64 = 32_768;

/// The part of it that comes next.
#[derive(Clone, Copy)]
pub enum LoadStage {
    /// An optional `=`, with spaces before it.
    Equals,
    /// The name of a file.
    Name,
    /// The first letter of `at`, or what stands in its place.
    At,
    /// The second one; whether the first one is a space, which is gone where the word breaks off.
    Letter(bool),
    /// The letters of `scaled`, or what stands in their place.
    Scaled(KeyScan),
    /// The size behind `at`.
    Size,
    /// The number behind `scaled`.
    Number,
}

/// What \font takes, as it is being scanned.
#[derive(Drop)]
pub struct LoadScan {
    pub(crate) stage: LoadStage,
    /// Where the name stands that is to mean the font.
    pub(crate) place: Place,
    pub(crate) file: FileNameScan,
    /// The name of the file, once it is whole.
    pub(crate) name: Bytes,
    pub(crate) size: DimenScan,
    pub(crate) number: IntScan,
}

/// A size that may be that of a font.
fn in_range(size: i64) -> bool
    ensures value { result ≡ spec.in_range size }
    ensures some { IsTrue result → pos 1 ≤ℤ size }
    ensures bound { IsTrue result → size ≤ℤ pos 134217727 }
{
    0 < size && size < TOO_LARGE
}

/// A number of thousandths that may be that of a font's size.
fn is_scale(number: i64) -> bool
    ensures value { result ≡ spec.is_scale number }
    ensures some { IsTrue result → pos 1 ≤ℤ number }
    ensures bound { IsTrue result → number ≤ℤ pos 32768 }
{
    0 < number && number <= MOST_SCALED
}

impl AskedSize {
    /// The size as that of a font.
    pub fn size(self) -> Size
        ensures { result ≡ spec.size_asked self }
    {
        match self {
            AskedSize::Design => Size::Design,
            AskedSize::At(size) => Size::At(i64::from(size)),
            AskedSize::Scaled(thousandths) => Size::Scaled(i64::from(thousandths)),
        }
    }
}

impl LoadScan {
    /// The scan of no font yet. It takes no memory.
    pub fn new(alloc: Global) -> LoadScan
        ensures { result ≡ begun_load Place.Badness [] }
    {
        LoadScan {
            stage: LoadStage::Equals,
            place: Place::Badness,
            file: FileNameScan::new(alloc),
            name: Bytes::new(alloc),
            size: DimenScan::new(alloc, false, false),
            number: IntScan::new(alloc),
        }
    }

    /// Begins what stands behind \font and the name at this place, with its first token. Its only error is want of memory.
    pub fn begin(&mut self, place: Place, token: &Seen) -> Result<Fed<FontAsked>, AllocError>
        ensures { IfOk result (BeginsLoad (λ more. spec.loading place (Took token.now ∷ more)) token.now self.new) }
    {
        self.place = place;
        self.feed_equals(token)
    }

    /// Takes one token, after More. Its only error is want of memory.
    pub fn feed(&mut self, token: &Seen) -> Result<Fed<FontAsked>, AllocError>
        ensures fed { IfOk result (IsFedBy rest held self.old token.now self.new) }
        ensures needs { IfOk result (NeedsNoMore (needed self.old) (needed self.new)) }
        ensures waits { IfOk result (WaitsIfNeeded self.new) }
    {
        match self.stage {
            LoadStage::Equals => self.feed_equals(token),
            LoadStage::Name => self.feed_name(token),
            LoadStage::At => self.feed_at(token),
            LoadStage::Letter(blank) => self.feed_letter(blank, token),
            LoadStage::Scaled(key) => self.feed_scaled(key, token),
            LoadStage::Size => {
                let fed = self.size.feed(token)?;
                self.sized(fed)
            }
            LoadStage::Number => {
                let fed = self.number.feed(token)?;
                self.scaled(fed)
            }
        }
    }

    /// Takes the value that it needs. Its only error is want of memory.
    pub fn give(&mut self, value: &Value) -> Result<Fed<FontAsked>, AllocError>
        requires { IsWaiting self.old }
        ensures given { (behind : Any_seen) → IfOk result (IsGivenBehind rest held self.old value.now behind self.new) }
        ensures needs { IfOk result (NeedsFewer (needed self.old) (needed self.new)) }
        ensures waits { IfOk result (WaitsIfNeeded self.new) }
    {
        match self.stage {
            LoadStage::Size => {
                let fed = self.size.give(value)?;
                self.sized(fed)
            }
            LoadStage::Number => {
                let fed = self.number.give(value);
                self.scaled(fed)
            }
            LoadStage::Equals | LoadStage::Name | LoadStage::At => unreachable!(),
            LoadStage::Letter(_) | LoadStage::Scaled(_) => unreachable!(),
        }
    }

    /// The scan goes on with this part, whose next token is expanded.
    fn on(&mut self, stage: LoadStage) -> Fed<FontAsked>
        ensures scan { self.new ≡ record self.old { stage = stage } }
        ensures answer { result ≡ Fed.More Want.Expanded }
    {
        self.stage = stage;
        Fed::More(Want::Expanded)
    }

    /// An optional `=`, or the first token of the name. Its only error is want of memory.
    fn feed_equals(&mut self, token: &Seen) -> Result<Fed<FontAsked>, AllocError>
        ensures { IfOk result (BeginsLoad (λ more. spec.loading self.old.place (Took token.now ∷ more)) token.now self.new) }
    {
        match EqualsScan::new().feed(token) {
            Fed::More(want) => {
                self.stage = LoadStage::Equals;
                Ok(Fed::More(want))
            }
            Fed::Need(kind) => Ok(Fed::Need(kind)),
            Fed::Done(_, 0) => {
                self.file.restart();
                Ok(self.on(LoadStage::Name))
            }
            Fed::Done(_, _) => self.begin_name(token),
            Fed::Wrong(error) => Ok(Fed::Wrong(error)),
        }
    }

    /// The first token of the name. Its only error is want of memory.
    fn begin_name(&mut self, token: &Seen) -> Result<Fed<FontAsked>, AllocError>
        ensures { IfOk result (BeginsLoad (λ more. spec.named self.old.place (Took token.now ∷ more)) token.now self.new) }
    {
        self.file.restart();
        self.stage = LoadStage::Name;
        self.feed_name(token)
    }

    /// A character of the name, or what ends it. Its only error is want of memory.
    fn feed_name(&mut self, token: &Seen) -> Result<Fed<FontAsked>, AllocError>
        requires { self.old.stage ≡ LoadStage.Name }
        ensures { IfOk result (BeginsLoad (λ more. rest self.old [] (Took token.now) more) token.now self.new) }
    {
        match self.file.feed(token)? {
            Fed::More(want) => Ok(Fed::More(want)),
            Fed::Need(kind) => Ok(Fed::Need(kind)),
            Fed::Done(name, 0) => {
                self.name = name;
                Ok(self.on(LoadStage::At))
            }
            Fed::Done(name, _) => {
                self.name = name;
                self.feed_at(token)
            }
            Fed::Wrong(error) => Ok(Fed::Wrong(error)),
        }
    }

    /// The first letter of `at`, or what stands in its place. Its only error is want of memory.
    fn feed_at(&mut self, token: &Seen) -> Result<Fed<FontAsked>, AllocError>
        ensures { IfOk result (BeginsLoad (λ more. spec.behind_name self.old.place self.old.name (Took token.now ∷ more)) token.now self.new) }
    {
        if token.is_key(b'a') {
            if token.is_undefined() {
                return Ok(Fed::Wrong(TexError::Undefined));
            }
            return Ok(self.on(LoadStage::Letter(token.is_space())));
        }
        if token.is_space() {
            return Ok(self.on(LoadStage::At));
        }
        self.feed_other(token)
    }

    /// What is no first letter of `at`, where `scaled` may come. Its only error is want of memory.
    fn feed_other(&mut self, token: &Seen) -> Result<Fed<FontAsked>, AllocError>
        ensures { IfOk result (BeginsLoad (λ more. spec.no_at self.old.place self.old.name (Took token.now ∷ more)) token.now self.new) }
    {
        self.feed_scaled(KeyScan::new(), token)
    }

    /// The second letter of `at`, or what stands in its place. Its only error is want of memory.
    fn feed_letter(&mut self, blank: bool, token: &Seen) -> Result<Fed<FontAsked>, AllocError>
        ensures reads { IfOk result (λ answer. (behind : List Item) → length behind ≤ 1 → IsRead rest held 2 (λ more. letter_rest self.old.place self.old.name blank behind (Took token.now ∷ more)) (behind ++ Took token.now ∷ []) self.new answer) }
        ensures needs { IfOk result (NeedsNoMore 0 (needed self.new)) }
        ensures waits { IfOk result (WaitsIfNeeded self.new) }
    {
        if token.is_undefined() {
            return Ok(Fed::Wrong(TexError::Undefined));
        }
        if token.is_key(b't') {
            self.size.restart(false, false);
            return Ok(self.on(LoadStage::Size));
        }
        if blank {
            self.feed_other(token)
        } else {
            self.whole(AskedSize::Design, 2)
        }
    }

    /// A letter of `scaled`, or what stands in its place. Its only error is want of memory.
    fn feed_scaled(&mut self, key: KeyScan, token: &Seen) -> Result<Fed<FontAsked>, AllocError>
        ensures reads { IfOk result (λ answer. (behind : List Item) → length behind ≤ key.read → IsRead rest held (key.read + 1) (λ more. next (words.rest (codes "scaled") key behind (Took token.now) more) (spec.scaled_or_not self.old.place self.old.name)) (behind ++ Took token.now ∷ []) self.new answer) }
        ensures needs { IfOk result (NeedsNoMore 0 (needed self.new)) }
        ensures waits { IfOk result (WaitsIfNeeded self.new) }
    {
        let mut key = key;
        match key.feed(b"scaled", token) {
            Fed::More(want) => {
                self.stage = LoadStage::Scaled(key);
                Ok(Fed::More(want))
            }
            Fed::Need(kind) => Ok(Fed::Need(kind)),
            Fed::Done(true, 0) => {
                self.number.restart();
                Ok(self.on(LoadStage::Number))
            }
            Fed::Done(true, _) => self.begin_number(token),
            Fed::Done(false, back) => self.whole(AskedSize::Design, back),
            Fed::Wrong(error) => Ok(Fed::Wrong(error)),
        }
    }

    /// The first token of the number behind `scaled`. Its only error is want of memory.
    fn begin_number(&mut self, token: &Seen) -> Result<Fed<FontAsked>, AllocError>
        ensures { IfOk result (BeginsLoad (λ more. spec.scaled_or_not self.old.place self.old.name true (Took token.now ∷ more)) token.now self.new) }
    {
        self.number.restart();
        self.stage = LoadStage::Number;
        let fed = self.number.feed(token)?;
        self.scaled(fed)
    }

    /// What becomes of it by what the scan of the size behind `at` answers. Its only error is want of memory.
    fn sized(&self, fed: Fed<Measure>) -> Result<Fed<FontAsked>, AllocError>
        ensures { IfOk result (λ answer. answer ≡ settled (spec.asked_at self.now.place self.now.name) fed) }
    {
        match fed {
            Fed::More(want) => Ok(Fed::More(want)),
            Fed::Need(kind) => Ok(Fed::Need(kind)),
            Fed::Done(measure, back) => {
                if !in_range(measure.size) {
                    return Ok(Fed::Wrong(TexError::BadFont));
                }
                self.whole(AskedSize::At(measure.size as i32), back)
            }
            Fed::Wrong(error) => Ok(Fed::Wrong(error)),
        }
    }

    /// What becomes of it by what the scan of the number behind `scaled` answers. Its only error is want of memory.
    fn scaled(&self, fed: Fed<i64>) -> Result<Fed<FontAsked>, AllocError>
        ensures { IfOk result (λ answer. answer ≡ settled (spec.asked_scaled self.now.place self.now.name) fed) }
    {
        match fed {
            Fed::More(want) => Ok(Fed::More(want)),
            Fed::Need(kind) => Ok(Fed::Need(kind)),
            Fed::Done(number, back) => {
                if !is_scale(number) {
                    return Ok(Fed::Wrong(TexError::BadFont));
                }
                self.whole(AskedSize::Scaled(number as u16), back)
            }
            Fed::Wrong(error) => Ok(Fed::Wrong(error)),
        }
    }

    /// All of it is read; so many tokens behind it are given back. Its only error is want of memory.
    fn whole(&self, size: AskedSize, back: usize) -> Result<Fed<FontAsked>, AllocError>
        ensures { IfOk result (λ answer. answer ≡ Fed.Done (spec.asked self.now.place self.now.name size) back) }
    {
        let asked = FontAsked {
            place: self.place.clone()?,
            name: self.name.clone()?,
            size,
        };
        Ok(Fed::Done(asked, back))
    }
}
