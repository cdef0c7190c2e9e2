//! How far the scan of a command's rest is.

use crate::letters::Letters;
use crate::types::{BoxContext, BoxGoal, Opener, Shaped};
use tx_prim::{BoxKind, CodedKind, FontNumber, MathSize, PageQuantity, ShiftKind, UnboxKind};
use tx_scan::{DimenScan, FontSought, GlueScan, IntScan};
use tx_seen::{FontName, TexError};

/// What is to be begun behind perhaps `to` or `spread` and a size.
#[derive(Clone, Copy)]
pub enum Opening {
    /// A box: which list makes it, and what becomes of it.
    Box(BoxKind, BoxContext),
    /// An alignment.
    Align,
}

/// What the number of a register is for.
#[derive(Clone, Copy)]
pub enum Registering {
    /// \box and \copy.
    Use(BoxContext),
    Copy(BoxContext),
    /// \unhbox and its kin.
    Unbox(UnboxKind),
    /// \setbox.
    Set,
    /// \char: the code of a character, and no register.
    Character,
    /// \accent: the same.
    Accent,
    /// \insert: a class, and no register; there is none of 255.
    Insert,
    /// \vsplit.
    Split(BoxContext),
    /// \textfont and its kin: a family, and no register; there are 16.
    Family(MathSize),
}

/// A size that is set behind an optional `=`.
#[derive(Clone, Copy)]
pub enum SizeSetting {
    /// \prevdepth.
    Depth,
    /// The \fontdimen of this number of a font.
    FontDimen(FontName, u16),
    /// A size of the page.
    Page(PageQuantity),
}

/// A number that is set behind an optional `=`.
#[derive(Clone, Copy)]
pub enum NumberSetting {
    /// \spacefactor.
    Factor,
    /// \prevgraf.
    PrevGraf,
    /// How many lines \parshape has.
    ParShape,
    /// \deadcycles.
    DeadCycles,
    /// \mathchar, which has no `=`.
    MathCharacter,
    /// \delimiter and its kin, which have none.
    Coded(CodedKind),
    /// A number of the page.
    Page(PageQuantity),
    /// \hyphenchar or \skewchar of a font.
    FontInteger(FontNumber, FontName),
}

/// What is set behind an optional `=`.
#[derive(Clone, Copy)]
pub enum Setting {
    Size(SizeSetting),
    Number(NumberSetting),
}

/// What a size is for.
#[derive(Clone, Copy)]
pub enum Sizing {
    /// `to` and `spread`.
    To(Opening),
    Spread(Opening),
    /// \raise and its kin.
    Shift(ShiftKind),
    /// \prevdepth and its kin.
    Set(SizeSetting),
    /// \vsplit of this register.
    Split(u8, BoxContext),
}

/// A number or a size, by what it is for.
#[derive(Clone, Copy)]
pub enum Amount {
    /// \penalty.
    Penalty,
    Register(Registering),
    Size(Sizing),
    /// \spacefactor and its kin.
    Number(NumberSetting),
    /// The number of a parameter, behind \fontdimen.
    FontDimen,
}

/// A part that needs no value.
#[derive(Clone, Copy)]
pub enum Plain {
    /// An optional `=`, with spaces before it, and the box that is put into this register.
    Equals(u8),
    /// A box, with spaces and \relax before it.
    Needed(BoxContext),
    /// Perhaps `to` or `spread` with a size, then a begin-group token.
    Goal(Opening),
    /// Perhaps `spread` with a size, then a begin-group token.
    Spread(Opening),
    /// A begin-group token, with spaces and \relax before it.
    Brace(Opening, BoxGoal),
    /// The same, with which this begins.
    Open(Opener),
    /// The word `to` of \vsplit of this register, with spaces before it.
    To(u8, BoxContext),
    /// Its second letter.
    ToLetter(u8, BoxContext),
    /// An optional `=`, with spaces before it, and the font of this family.
    FamilyEquals(MathSize, u8),
    /// That font, with spaces before it.
    FamilyFont(MathSize, u8),
}

/// What follows a number or a size.
#[derive(Clone, Copy)]
pub enum Next {
    /// This part.
    Part(Plain),
    /// A font of which this is needed, with spaces before it.
    Font(FontSought),
    /// Nothing.
    Whole(Shaped),
    /// It is wrong.
    Wrong(TexError),
}

/// The part that comes next.
#[derive(Clone, Copy)]
pub enum Stage {
    /// A number or a size.
    Amount,
    Plain(Plain),
    /// An optional `=`, with spaces before it, and the size or the number that is set.
    Setting(Setting),
    /// A font of which this is needed, with spaces before it.
    Font(FontSought),
    /// What a font has for its parameter of this number, which shows whether it has one.
    FontRoom(FontName, u16),
    /// Glue.
    Glue,
    /// Glue in mu.
    MathGlue,
    /// The letters of `to` or `spread` behind these.
    Word(Opening, Letters),
}

/// A number or a size that is being scanned.
#[derive(Drop)]
pub struct AmountScan {
    pub(crate) amount: Amount,
    pub(crate) integer: IntScan,
    pub(crate) size: DimenScan,
}

/// The rest of a command that is being scanned.
#[derive(Drop)]
pub struct ShapeScan {
    pub(crate) stage: Stage,
    pub(crate) amount: AmountScan,
    pub(crate) glue: GlueScan,
}
