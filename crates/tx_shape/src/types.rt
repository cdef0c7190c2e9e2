//! What families of commands are, and what they come to once they are read whole.
use tx_bytes::Bytes;
use tx_num::Glue;
use tx_prim::{
    BoxKind, BoxSource, BreakText, CodedKind, FontNumber, GlueForm, LeadersKind, MathSize,
    MathStyle, PageQuantity, ShiftKind, UnboxKind,
};
use tx_seen::{FontName, Place};

/// What becomes of a box (TeX: The Program, section 1071).
#[derive(Clone, Copy, PartialEq, Eq)]
pub enum BoxContext {
    /// It is appended to the list that it stands in, shifted by so many sp: down in a horizontal list, to the right in a
    /// vertical one.
    Append(i32),
    /// It is put into this register.
    Register(u8),
    /// It is shipped.
    Ship,
    /// Its list is that of a \vadjust.
    Adjust,
    /// It is the nucleus of an atom, centred as \vcenter does it.
    Center,
    /// Leaders repeat it, whose glue is to follow.
    Lead(LeadersKind),
}

/// What the list of a box is packed to: its natural size, so many sp, or so many more than that (The TeXbook, chapter 12).
#[derive(Clone, Copy, PartialEq, Eq)]
pub enum BoxGoal {
    Natural,
    To(i32),
    Spread(i32),
}

/// What begins with a begin-group token that is awaited by itself.
#[derive(Clone, Copy, PartialEq, Eq)]
pub enum Opener {
    /// This text of \discretionary.
    Break(BreakText),
    /// The list of \mathchoice for this style.
    Choice(MathStyle),
    /// The list of an \insert of this class.
    Insert(u8),
    /// The tokens of \output.
    Output,
    /// The material of \noalign.
    NoAlign,
}

/// A box that is meant (TeX: The Program, section 1079).
#[derive(Clone, Copy)]
pub enum BoxRead {
    /// \hbox or its kin, whose begin-group token is taken.
    Begin(BoxKind, BoxGoal),
    /// \box and \copy of this register.
    Use(u8),
    Copy(u8),
    /// \lastbox.
    Last,
    /// \vsplit of this register, to so many sp.
    Split(u8, i32),
}

/// A command by its first token: what stands behind that is read.
#[derive(Clone, Copy)]
pub enum Shaping {
    /// \hbox and its kin.
    Box(BoxKind),
    /// \box and its kin.
    From(BoxSource),
    /// \shipout.
    Shipout,
    /// \setbox.
    SetBox,
    /// \raise and its kin.
    Shift(ShiftKind),
    /// \unhbox and its kin.
    Unbox(UnboxKind),
    /// \penalty.
    Penalty,
    /// \prevdepth.
    PrevDepth,
    /// \hskip, \vskip and their kin.
    Glue(GlueForm),
    /// \char.
    Character,
    /// \spacefactor.
    Factor,
    /// \prevgraf.
    PrevGraf,
    /// \parshape.
    ParShape,
    /// \vadjust.
    Adjust,
    /// \mathchar.
    MathCharacter,
    /// \delimiter and its kin.
    Coded(CodedKind),
    /// \accent.
    Accent,
    /// \vcenter.
    Center,
    /// \mskip.
    MathGlue,
    /// \insert.
    Insert,
    /// \halign.
    Align,
    /// \deadcycles.
    DeadCycles,
    /// \pagegoal and its kin.
    Page(PageQuantity),
    /// What begins with a begin-group token that is awaited.
    Open(Opener),
    /// \fontdimen.
    FontDimen,
    /// \hyphenchar and \skewchar.
    FontInteger(FontNumber),
    /// \textfont and its kin.
    Family(MathSize),
}

/// What such a command is once it is whole.
#[derive(Clone, Copy)]
pub enum Shaped {
    /// A box, and what becomes of it.
    Box(BoxRead, BoxContext),
    /// The box in this register gives its list to the list around.
    Unbox(UnboxKind, u8),
    /// A penalty.
    Penalize(i32),
    /// \prevdepth is to be so many sp.
    SetDepth(i32),
    /// Glue.
    Skip(Glue),
    /// A character to be set.
    Character(u8),
    /// A character of a formula, by its number.
    MathCharacter(i32),
    /// The number behind \delimiter or its kin.
    Coded(CodedKind, i32),
    /// The character of an accent.
    Accent(u8),
    /// Glue in mu.
    MathSkip(Glue),
    /// \spacefactor is to be this number.
    SetFactor(i32),
    /// \prevgraf is to be this number.
    SetPrevGraf(i32),
    /// \parshape is to have so many lines.
    BeginShape(i32),
    /// \deadcycles is to be this number.
    SetDeadCycles(i32),
    /// A quantity of the page is to be this number or so many sp.
    SetPage(PageQuantity, i32),
    /// The begin-group token of this is there.
    Open(Opener),
    /// That of \halign is, whose preamble is set to this.
    BeginAlign(BoxGoal),
    /// The \fontdimen of this number of a font is to be so many sp.
    SetFontDimen(FontName, u16, i32),
    /// \hyphenchar or \skewchar of a font is to be this number.
    SetFontInteger(FontNumber, FontName, i32),
    /// The font of a family at a size is to be this one.
    SetFamily(MathSize, u8, FontName),
}

/// The size at which \font asks for a font, in little room: commands are moved with each token.
#[derive(Clone, Copy)]
pub enum AskedSize {
    /// Its design size.
    Design,
    /// So many sp.
    At(i32),
    /// So many thousandths of its design size.
    Scaled(u16),
}

/// A font for which \font asks.
#[derive(Drop)]
pub struct FontAsked {
    /// Where the name stands that is to mean it.
    pub place: Place,
    /// The name of its file as it is written.
    pub name: Bytes,
    pub size: AskedSize,
}
