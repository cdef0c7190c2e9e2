//! The families of primitives: those of one family take the same behind them, and differ by one word (The TeXbook, chapters 24 to
//! 26).

/// A prefix of assignments (The TeXbook, chapter 24).
#[derive(Clone, Copy)]
pub enum Prefix {
    /// \global.
    Global,
    /// \long and \outer, of definitions.
    Long,
    Outer,
}

/// How much TeX asks of its user (The TeXbook, chapter 6); nothing, whatever is said.
#[derive(Clone, Copy)]
pub enum Interaction {
    /// \batchmode and its kin.
    Batch,
    Nonstop,
    Scroll,
    Errorstop,
}

/// What \advance, \multiply and \divide do.
#[derive(Clone, Copy)]
pub enum Operation {
    Advance,
    Multiply,
    Divide,
}

/// What a name is made to mean by a number (TeX: The Program, section 1222).
#[derive(Clone, Copy, PartialEq, Eq)]
pub enum Shorthand {
    /// \countdef, \dimendef, \skipdef, \muskipdef and \toksdef: a register.
    CountRegister,
    DimenRegister,
    SkipRegister,
    MuskipRegister,
    ToksRegister,
    /// \chardef: a character.
    Character,
    /// \mathchardef: a character of mathematics.
    MathCharacter,
}

/// One of the codes that a character has beside its category (The TeXbook, chapters 7, 8, 12 and 17).
#[derive(Clone, Copy, PartialEq, Eq)]
pub enum CharacterCode {
    /// \lccode.
    LowerCase,
    /// \uccode.
    UpperCase,
    /// \sfcode.
    SpaceFactor,
    /// \mathcode.
    Math,
    /// \delcode.
    Delimiter,
}

/// What a number from 0 to 255 tells apart.
#[derive(Clone, Copy, PartialEq, Eq)]
pub enum Numbered {
    /// The registers of \count.
    Count,
    /// The registers of \dimen.
    Dimen,
    /// The registers of \skip.
    Skip,
    /// The registers of \muskip.
    Muskip,
    /// The registers of \toks.
    Toks,
    /// \catcode of a character.
    Category,
    /// Another code of a character.
    Code(CharacterCode),
    /// \wd, \ht and \dp: a size of the box in a register.
    Size(BoxSide),
}

/// What is made of a dimension.
#[derive(Clone, Copy)]
pub enum SizeKind {
    /// \kern.
    Kern,
    /// \mkern: a kern in mu.
    MathKern,
    /// \above: the line of a fraction.
    Above,
}

/// In which lists a rule stands (The TeXbook, chapter 21).
#[derive(Clone, Copy)]
pub enum RuleKind {
    /// \vrule, in horizontal ones.
    Vertical,
    /// \hrule, in vertical ones.
    Horizontal,
}

/// Which list makes a box (The TeXbook, chapter 12).
#[derive(Clone, Copy, PartialEq, Eq)]
pub enum BoxKind {
    /// \hbox: a horizontal one.
    Horizontal,
    /// \vbox: a vertical one, whose last box or rule has the depth.
    Vertical,
    /// \vtop: a vertical one, whose first box or rule has the height.
    Top,
}

/// How a macro is defined (The TeXbook, chapter 20).
#[derive(Clone, Copy, PartialEq, Eq)]
pub enum DefinitionKind {
    /// \def.
    Plain,
    /// \edef: its body is expanded.
    Expanded,
    /// \gdef and \xdef: the same, globally.
    Global,
    GlobalExpanded,
}

/// What a text in braces is for (The TeXbook, chapter 24).
#[derive(Clone, Copy, PartialEq, Eq)]
pub enum TextUse {
    /// \message: to be printed.
    Message,
    /// \errmessage: an error of the document's own.
    ErrorMessage,
    /// \uppercase and \lowercase: to be read with other letters.
    UpperCase,
    LowerCase,
    /// \special: to be written to the DVI file.
    Special,
    /// \patterns and \hyphenation: to be known from now on where words are hyphenated.
    Patterns,
    Hyphenation,
    /// \mark: to be found on the page where it stands.
    Mark,
}

/// What a token is kept for (The TeXbook, chapter 24).
#[derive(Clone, Copy)]
pub enum AfterKind {
    /// \aftergroup: the end of the group.
    Group,
    /// \afterassignment: the next assignment's end.
    Assignment,
}

/// How a paragraph begins (The TeXbook, chapter 14).
#[derive(Clone, Copy)]
pub enum Indentation {
    /// \indent: with an empty box as wide as \parindent.
    Indented,
    /// \noindent: without.
    Flush,
}

/// A text of a discretionary (TeX: The Program, section 145).
#[derive(Clone, Copy, PartialEq, Eq)]
pub enum BreakText {
    /// The one before a break at it.
    Before,
    /// The one behind such a break.
    Behind,
    /// The one that stands there where no line ends.
    Instead,
}

/// A size of a box (The TeXbook, chapter 12).
#[derive(Clone, Copy, PartialEq, Eq)]
pub enum BoxSide {
    /// \wd.
    Width,
    /// \ht.
    Height,
    /// \dp.
    Depth,
}

/// Where a box comes from that was made before (TeX: The Program, section 1071).
#[derive(Clone, Copy)]
pub enum BoxSource {
    /// \box: a register, which is void from then on.
    Register,
    /// \copy: a register, which keeps it.
    Copy,
    /// \lastbox: the end of the list.
    Last,
    /// \vsplit: what a vertical box in a register begins with, up to the best break.
    Split,
}

/// Which way a box is shifted (TeX: The Program, section 1071).
#[derive(Clone, Copy)]
pub enum ShiftKind {
    /// \raise and \lower, in horizontal lists.
    Raise,
    Lower,
    /// \moveleft and \moveright, in vertical ones.
    Left,
    Right,
}

/// A box of which kind gives its list to the list around, and whether it keeps it (TeX: The Program, section 1107).
#[derive(Clone, Copy)]
pub enum UnboxKind {
    /// \unhbox and \unhcopy.
    Horizontal,
    HorizontalCopy,
    /// \unvbox and \unvcopy.
    Vertical,
    VerticalCopy,
}

/// Which glue is appended (TeX: The Program, section 1058).
#[derive(Clone, Copy)]
pub enum GlueForm {
    /// \hskip and \vskip: glue that follows.
    Skip,
    /// \hfil and \vfil: 0pt plus 1fil.
    Fil,
    /// \hfill and \vfill: 0pt plus 1fill.
    Fill,
    /// \hss and \vss: 0pt plus 1fil minus 1fil.
    Both,
    /// \hfilneg and \vfilneg: 0pt plus -1fil.
    Negative,
}

/// Items of lists that commands take away again and whose sizes they read (The TeXbook, chapter 24).
#[derive(Clone, Copy, PartialEq, Eq)]
pub enum ItemKind {
    /// \unpenalty and \lastpenalty.
    Penalty,
    /// \unkern and \lastkern.
    Kern,
    /// \unskip and \lastskip: glue, leaders too.
    Skip,
}

/// How the copies of leaders are spread (TeX: The Program, section 149).
#[derive(Clone, Copy, PartialEq, Eq)]
pub enum LeadersKind {
    /// \leaders.
    Aligned,
    /// \cleaders.
    Centered,
    /// \xleaders.
    Expanded,
}

/// What can be read of the page that is being built, and assigned (The TeXbook, chapter 15).
#[derive(Clone, Copy, PartialEq, Eq)]
pub enum PageQuantity {
    /// \pagegoal: how high it is to be.
    Goal,
    /// \pagetotal: how high it is.
    Total,
    /// \pagestretch, \pagefilstretch and their kin: how much it stretches, by each order.
    Stretch,
    FilStretch,
    FillStretch,
    FilllStretch,
    /// \pageshrink.
    Shrink,
    /// \pagedepth.
    Depth,
    /// \insertpenalties, an integer.
    InsertPenalties,
}

/// A class of atoms, or what an Ord is set with (The TeXbook, chapters 17 and 26; TeX: The Program, section 1156).
#[derive(Clone, Copy)]
pub enum AtomClass {
    /// \mathord.
    Ord,
    /// \mathop.
    Op,
    /// \mathbin.
    Bin,
    /// \mathrel.
    Rel,
    /// \mathopen.
    Open,
    /// \mathclose.
    Close,
    /// \mathpunct.
    Punct,
    /// \mathinner.
    Inner,
    /// \underline.
    Under,
    /// \overline.
    Over,
}

/// A part of an atom (The TeXbook, chapter 17).
#[derive(Clone, Copy, PartialEq, Eq)]
pub enum AtomPart {
    /// Its nucleus.
    Nucleus,
    /// Its superscript.
    Superscript,
    /// Its subscript.
    Subscript,
}

/// Where the limits of a large operator stand (TeX: The Program, section 1156).
#[derive(Clone, Copy)]
pub enum LimitsKind {
    /// \limits: above and below it.
    Always,
    /// \nolimits: behind it.
    Never,
    /// \displaylimits: as the style says.
    Displayed,
}

/// A style of formulas (The TeXbook, chapter 17).
#[derive(Clone, Copy, PartialEq, Eq)]
pub enum MathStyle {
    /// \displaystyle.
    Display,
    /// \textstyle.
    Text,
    /// \scriptstyle.
    Script,
    /// \scriptscriptstyle.
    ScriptScript,
}

/// What makes a fraction of the list around it, and takes nothing (The TeXbook, chapter 17).
#[derive(Clone, Copy)]
pub enum FractionKind {
    /// \over: with a line.
    Over,
    /// \atop: without.
    Atop,
}

/// What makes a fraction of the list around it and takes two delimiters, which stand around the fraction (The TeXbook,
/// chapter 17).
#[derive(Clone, Copy, PartialEq, Eq)]
pub enum DelimitedKind {
    /// \overwithdelims: with a line.
    Over,
    /// \atopwithdelims: without.
    Atop,
    /// \abovewithdelims: with a line of a size that follows.
    Above,
}

/// What takes a delimiter (The TeXbook, chapter 17).
#[derive(Clone, Copy, PartialEq, Eq)]
pub enum DelimiterUse {
    /// \left: a formula between delimiters begins.
    Left,
    /// \right: it ends.
    Right,
    /// \overwithdelims and its kin, which take two.
    Fraction(DelimitedKind),
}

/// What a number names by its classes, families and characters (The TeXbook, chapter 17).
#[derive(Clone, Copy, PartialEq, Eq)]
pub enum CodedKind {
    /// \delimiter: a delimiter, and elsewhere a character.
    Delimiter,
    /// \radical: the delimiter at the left of an atom with a line above it.
    Radical,
    /// \mathaccent: a character that stands above an atom.
    Accent,
}

/// On which side of its line the number of an equation stands (The TeXbook, chapter 19).
#[derive(Clone, Copy, PartialEq, Eq)]
pub enum NumberSide {
    /// \eqno.
    Right,
    /// \leqno.
    Left,
}

/// The size of the fonts of families (The TeXbook, chapter 17).
#[derive(Clone, Copy, PartialEq, Eq)]
pub enum MathSize {
    /// \textfont.
    Text,
    /// \scriptfont.
    Script,
    /// \scriptscriptfont.
    ScriptScript,
}

/// A word of alignments (The TeXbook, chapter 22).
#[derive(Clone, Copy, PartialEq, Eq)]
pub enum AlignWord {
    /// \cr and \crcr: a row ends.
    Cr,
    CrCr,
    /// \span: an entry goes on in the next column.
    Span,
    /// \omit: an entry stands without what its column has for all.
    Omit,
    /// \noalign: material between rows.
    NoAlign,
}

/// What ends an entry of an alignment (TeX: The Program, section 789).
#[derive(Clone, Copy, PartialEq, Eq)]
pub enum EntryEnd {
    /// A character of category AlignmentTab.
    Tab,
    /// \span.
    Span,
    /// \cr and \crcr.
    Cr,
    CrCr,
}

/// An integer that each font has (The TeXbook, chapter 24).
#[derive(Clone, Copy, PartialEq, Eq)]
pub enum FontNumber {
    /// \hyphenchar.
    Hyphen,
    /// \skewchar.
    Skew,
}
