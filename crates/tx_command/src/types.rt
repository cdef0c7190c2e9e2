//! What commands are, once they are read whole, and what may stand before them.
use tx_assign::Assignment;
use tx_bytes::Bytes;
use tx_char::Token;
use tx_list::Items;
use tx_node::{BoxNode, Rule};
use tx_num::Glue;
use tx_prim::{
    AfterKind, AtomClass, AtomPart, BoxKind, CodedKind, DefinitionKind, DelimitedKind,
    DelimiterUse, FontNumber, FractionKind, Indentation, Interaction, ItemKind, LeadersKind,
    LimitsKind, MathSize, MathStyle, NumberSide, PageQuantity, Prefix, RuleKind, Shorthand,
    SizeKind, TextUse, UnboxKind,
};
use tx_seen::{FontName, Place, Seen};
use tx_shape::{AskedSize, BoxContext, BoxGoal, Opener};

/// What a size is for.
#[derive(Clone, Copy)]
pub enum SizeUse {
    /// This is made of it, as by \kern.
    Item(SizeKind),
    /// It is the next one of \parshape.
    Shape,
}

/// Which delimiter is to follow.
#[derive(Clone, Copy, PartialEq, Eq)]
pub enum Delimiting {
    /// The first one of this.
    First(DelimiterUse),
    /// The second one of a fraction, behind the one of this number.
    Second(DelimitedKind, u32),
}

/// The prefixes before a command (The TeXbook, chapter 24).
#[derive(Clone, Copy, PartialEq, Eq)]
pub struct Prefixes {
    pub global: bool,
    pub long: bool,
    pub outer: bool,
}

/// What stands before the tokens of a command and decides how they are read.
#[derive(Drop)]
pub enum Head {
    /// Nothing.
    Fresh,
    /// Prefixes: an assignment is to follow.
    Prefixed(Prefixes),
    /// \chardef or its kin, with its prefixes and the name that it defines: what the name is to stand for is to follow.
    Defining(Prefixes, Place, Shorthand),
    /// \futurelet, with its prefixes and the name that it defines: two tokens are to follow.
    Future(Prefixes, Place),
    /// \leaders or its kin and the rule that they repeat: glue is to follow.
    Leading(LeadersKind, Rule),
    /// The same with the box that they repeat.
    LeadingBox(LeadersKind, BoxNode),
    /// A `$` that begins a formula: the token behind it is looked at.
    Shift,
    /// An atom with this part empty, which is to follow: a character, or a begin-group token.
    Part(AtomPart),
    /// \left or its kin: a delimiter is to follow.
    Delimiting(Delimiting),
    /// \abovewithdelims and the numbers of its delimiters: the size of the line is to follow.
    Thickness(u32, u32),
    /// \accent and its character, and perhaps prefixes of an assignment: assignments are to follow, and perhaps the character below
    /// it.
    Accenting(Prefixes),
    /// \font, with its prefixes and the name that it defines: which font that is to mean is to follow.
    Loading(Prefixes, Place),
    /// \parshape, with its prefixes, how many sizes are to follow, and those that are read, in sp.
    Shaping(Prefixes, u32, Items<i32>),
    /// The begin-group token of this is to follow, behind what stands before it: of a text of \discretionary, a list of
    /// \mathchoice, \insert, \output's tokens or \noalign.
    Opening(Opener),
    /// \halign, which stood at this level of braces: what its preamble is set to and its begin-group token are to follow.
    Aligning(i64),
    /// The preamble of an alignment is to follow, token by token.
    Preamble,
    /// A row of an alignment is to follow, or what stands between rows, or the alignment's end.
    Row,
    /// A further entry of a row is to follow.
    Entry,
    /// A `$` that ends a displayed formula: a second one is to follow.
    SecondShift,
    /// A displayed formula that has ended: a space behind it is skipped, and all else is read again.
    Displayed,
}

/// A command with all that belongs to it.
#[derive(Drop)]
pub enum Command {
    /// `\relax`, and what is skipped behind a prefix.
    Nothing,
    /// A space.
    Space,
    /// A character to be set.
    Character(u8),
    /// A begin-group or an end-group token.
    BeginGroup,
    EndGroup,
    /// `\begingroup` and `\endgroup`.
    BeginSemiSimple,
    EndSemiSimple,
    /// A `$`.
    MathShift,
    /// What stands behind a `$` that begins a formula; it is read again.
    BeginFormula,
    /// A second `$` in a paragraph, which begins a displayed formula.
    BeginDisplay,
    /// A second `$` behind a displayed formula, which ends it.
    EndDisplay,
    /// What stands behind a displayed formula: the paragraph goes on.
    GoOn,
    /// `\eqno` or `\leqno`.
    BeginNumber(NumberSide),
    /// A character that begins a superscript or a subscript.
    Script(AtomPart),
    /// `\mathchar` or what stands for it.
    MathCharacter(i32),
    /// `\mathord` or its kin, which the nucleus of the atom is to follow.
    BeginAtom(AtomClass),
    /// `\limits` or its kin.
    SetLimits(LimitsKind),
    /// `\displaystyle` or its kin.
    SetStyle(MathStyle),
    /// `\mathchoice`, whose lists are to follow.
    BeginChoice,
    /// `\over` or `\atop`.
    BeginFraction(FractionKind),
    /// `\left` or its kin, whose delimiters are to follow.
    BeginDelimited(DelimiterUse),
    /// `\delimiter` or its kin and its number.
    Coded(CodedKind, i32),
    /// `\accent` and its character, which assignments and perhaps the character below it are to follow.
    BeginAccent(u8),
    /// What stands behind them and is none; it is read again.
    EndAccent,
    /// `\mskip`.
    MathSkip(Glue),
    /// `\nonscript`.
    Nonscript,
    /// An assignment to the font of a family at a size.
    SetFamily(MathSize, u8, FontName),
    /// A prefix of the command behind it.
    Prefix(Prefix),
    /// `\chardef` or its kin and the name that it defines.
    Define(Place, Shorthand),
    /// An assignment.
    Assign(Assignment),
    /// A size in sp: that of a `\kern`, of the line of a fraction, or the next one of `\parshape`; that of an `\mkern` is in mu.
    Sized(SizeUse, i32),
    /// `\vrule`.
    Rule(RuleKind, Rule),
    /// `\hbox` or its kin and its begin-group token, with what its list is packed to and what becomes of the box.
    BeginBox(BoxKind, BoxGoal, BoxContext),
    /// `\box` and `\copy` of a register, with what becomes of the box.
    UseBox(u8, BoxContext),
    CopyBox(u8, BoxContext),
    /// `\lastbox`, with what becomes of the box.
    LastBox(BoxContext),
    /// `\vsplit` of a register to so many sp, with what becomes of the box.
    SplitBox(u8, i32, BoxContext),
    /// `\unhbox` or its kin of a register.
    Unbox(UnboxKind, u8),
    /// `\penalty`.
    Penalize(i32),
    /// `\unpenalty` or its kin.
    Remove(ItemKind),
    /// `\hskip`, `\vskip` or their kin.
    Skip(Glue),
    /// `\leaders` or its kin and the rule that they repeat.
    BeginLeaders(LeadersKind, Rule),
    /// An assignment to `\prevdepth`, in sp.
    SetDepth(i32),
    /// `\ `.
    ControlSpace,
    /// `\indent` or `\noindent`, or a command that begins a paragraph, whose first token is read again.
    Indent(Indentation),
    /// A command that ends a paragraph before it, whose first token is read again behind `\par`.
    InsertPar,
    /// `\par`.
    EndParagraph,
    /// `\-`.
    DiscretionaryHyphen,
    /// `\/`.
    ItalicCorrection,
    /// An assignment to `\spacefactor`.
    SetFactor(i32),
    /// An assignment to `\prevgraf`.
    SetPrevGraf(i32),
    /// `\parshape` and how many lines it is to have, whose sizes are to follow.
    BeginShape(i32),
    /// The begin-group token before a text of `\discretionary`, a list of `\mathchoice`, `\insert`, `\output`'s tokens or
    /// `\noalign`.
    Open(Opener),
    /// `\halign`.
    Align,
    /// The begin-group token of an alignment, with what the preamble is set to.
    BeginAlign(BoxGoal),
    /// `\span` in a preamble: the next token is expanded once.
    ExpandOnce,
    /// Any other token of a preamble, with what it means.
    Template(Seen),
    /// The first token of an entry: whether it is `\omit`, or is read again.
    BeginEntry(bool),
    /// The end-group token of an alignment.
    EndAlign,
    /// An assignment to `\deadcycles`.
    SetDeadCycles(i32),
    /// An assignment to a quantity of the page, in sp; to `\insertpenalties` a number.
    SetPage(PageQuantity, i32),
    /// `\font` and the name that it defines.
    DefineFont(Place),
    /// What stands behind that name: the name of the file, as it is written, of the font that the name at this place is to mean,
    /// and the size at which that is used.
    LoadFont(Place, Bytes, AskedSize),
    /// An assignment to the `\fontdimen` of this number of a font, in sp.
    SetFontDimen(FontName, u16, i32),
    /// An assignment to `\hyphenchar` or `\skewchar` of a font.
    SetFontInteger(FontNumber, FontName, i32),
    /// `\end`, which is read again unless the run ends.
    End,
    /// `\batchmode` and its kin, assignments that nothing comes of.
    Interact(Interaction),
    /// `\def` or its kin and the name that it defines, whose parameter text and body are to follow.
    DefineMacro(Place, DefinitionKind),
    /// `\message` or its kin, whose text is to follow.
    BeginText(TextUse),
    /// `\futurelet` and the name that it defines.
    DefineFuture(Place),
    /// `\aftergroup` or `\afterassignment` and its token.
    Keep(AfterKind, Token),
}
