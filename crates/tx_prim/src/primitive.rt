//! The primitives: what each is called, and where it may stand.
ghost use Rattle.std.specs.Prelude.{◌≡◌, Some, IfSome};
ghost use Rattle.tx_prim.specs.declared.primitive.Primitive.{Primitive};
ghost use Rattle.tx_prim.specs.Table.{all, modes_of, name_of, named};

use crate::dimension::DimensionParameter;
use crate::family::{
    AfterKind, AlignWord, AtomClass, BoxKind, BoxSide, BoxSource, CharacterCode, CodedKind,
    DefinitionKind, DelimitedKind, DelimiterUse, FontNumber, FractionKind, GlueForm, Indentation,
    Interaction, ItemKind, LeadersKind, LimitsKind, MathSize, MathStyle, NumberSide, Numbered,
    Operation, PageQuantity, Prefix, RuleKind, ShiftKind, Shorthand, SizeKind, TextUse, UnboxKind,
};
use crate::glue::GlueParameter;
use crate::integer::IntegerParameter;
use crate::modes::Modes;
use crate::tokens::TokenParameter;

/// A primitive of TeX: a command that isn't defined by others, and with which INITEX begins (The TeXbook, chapters 24 to
/// 26). The primitives of one family are one variant.
#[derive(Clone, Copy)]
pub enum Primitive {
    /// \relax.
    Relax,
    /// \endcsname, which stands behind \csname alone.
    EndCsName,
    /// \par.
    Par,
    /// \begingroup and \endgroup.
    BeginGroup,
    EndGroup,
    /// A prefix, as \global.
    Prefix(Prefix),
    /// \let.
    Let,
    /// \countdef and its kin.
    Shorthand(Shorthand),
    /// \advance and its kin.
    Arithmetic(Operation),
    /// Registers, and codes of characters, as \count and \catcode.
    Numbered(Numbered),
    /// A parameter.
    Integer(IntegerParameter),
    Dimension(DimensionParameter),
    Glue(GlueParameter),
    Tokens(TokenParameter),
    /// What takes a dimension, as \kern.
    Sized(SizeKind),
    /// A rule, as \vrule.
    Rule(RuleKind),
    /// What begins a box, as \hbox.
    Box(BoxKind),
    /// \shipout.
    Shipout,
    /// \end.
    End,
    /// \ignorespaces.
    IgnoreSpaces,
    /// \batchmode and its kin.
    Interaction(Interaction),
    /// \def and its kin.
    Definition(DefinitionKind),
    /// What takes a text in braces, as \message.
    Text(TextUse),
    /// \aftergroup and \afterassignment.
    After(AfterKind),
    /// \futurelet.
    FutureLet,
    /// A box that was made before, as \box.
    BoxFrom(BoxSource),
    /// \setbox.
    SetBox,
    /// What shifts a box, as \raise.
    Shift(ShiftKind),
    /// What gives a box's list to the list around, as \unhbox.
    Unbox(UnboxKind),
    /// Glue of horizontal lists, as \hskip.
    HorizontalGlue(GlueForm),
    /// Glue of vertical lists, as \vskip.
    VerticalGlue(GlueForm),
    /// \penalty.
    Penalty,
    /// What takes the last item away, as \unskip.
    Remove(ItemKind),
    /// What stands for the last item's size, as \lastskip.
    Last(ItemKind),
    /// \badness: how bad the box is that was packed last.
    Badness,
    /// \prevdepth.
    PrevDepth,
    /// Leaders, as \leaders.
    Leaders(LeadersKind),
    /// \nullfont: the font without characters.
    NullFont,
    /// \font.
    LoadFont,
    /// \fontdimen.
    FontDimen,
    /// \hyphenchar and \skewchar.
    FontInteger(FontNumber),
    /// \textfont and its kin: the font of a family.
    FamilyFont(MathSize),
    /// \char.
    Char,
    /// \spacefactor.
    SpaceFactor,
    /// \/: the italic correction.
    ItalicCorrection,
    /// `\ `: a space between words, wherever it stands.
    ControlSpace,
    /// \indent and \noindent.
    Indent(Indentation),
    /// `\-`: a place where a word may be broken.
    DiscretionaryHyphen,
    /// \prevgraf: how many lines the last paragraph has.
    PrevGraf,
    /// \parshape: the lines of a paragraph one by one.
    ParShape,
    /// \vadjust: vertical material that follows the line.
    Adjust,
    /// \discretionary.
    Discretionary,
    /// \mathchar: a character of a formula, by its number.
    MathChar,
    /// What makes an atom of what follows, as \mathord.
    Atom(AtomClass),
    /// \vcenter.
    Center,
    /// \limits and its kin.
    Limits(LimitsKind),
    /// \displaystyle and its kin.
    Style(MathStyle),
    /// \mathchoice.
    Choice,
    /// \over and \atop.
    Fraction(FractionKind),
    /// What takes delimiters, as \left.
    Delimited(DelimiterUse),
    /// What takes the number of characters, as \delimiter.
    Coded(CodedKind),
    /// \accent: a character that stands above another.
    Accent,
    /// \mskip: glue in mu.
    MathGlue,
    /// \nonscript.
    Nonscript,
    /// \insert: vertical material that goes to a place of its own on the page.
    Insert,
    /// \deadcycles: how often \output was read since a page was shipped.
    DeadCycles,
    /// What can be read of the page that is being built, as \pagegoal.
    Page(PageQuantity),
    /// \halign.
    Align,
    /// A word of alignments, as \cr.
    AlignWord(AlignWord),
    /// \eqno and \leqno: the number of an equation.
    EquationNumber(NumberSide),
}

/// All primitives, in the order of their table.
const ALL: [Primitive; 272] = [
    Primitive::Relax,
    Primitive::EndCsName,
    Primitive::BeginGroup,
    Primitive::EndGroup,
    Primitive::Prefix(Prefix::Global),
    Primitive::Let,
    Primitive::Arithmetic(Operation::Advance),
    Primitive::Arithmetic(Operation::Multiply),
    Primitive::Arithmetic(Operation::Divide),
    Primitive::Numbered(Numbered::Count),
    Primitive::Numbered(Numbered::Dimen),
    Primitive::Numbered(Numbered::Toks),
    Primitive::Shorthand(Shorthand::CountRegister),
    Primitive::Shorthand(Shorthand::DimenRegister),
    Primitive::Shorthand(Shorthand::ToksRegister),
    Primitive::Shorthand(Shorthand::Character),
    Primitive::Shorthand(Shorthand::MathCharacter),
    Primitive::Numbered(Numbered::Category),
    Primitive::Numbered(Numbered::Code(CharacterCode::LowerCase)),
    Primitive::Numbered(Numbered::Code(CharacterCode::UpperCase)),
    Primitive::Numbered(Numbered::Code(CharacterCode::SpaceFactor)),
    Primitive::Numbered(Numbered::Code(CharacterCode::Math)),
    Primitive::Numbered(Numbered::Code(CharacterCode::Delimiter)),
    Primitive::Box(BoxKind::Horizontal),
    Primitive::Shipout,
    Primitive::Sized(SizeKind::Kern),
    Primitive::Par,
    Primitive::End,
    Primitive::Rule(RuleKind::Vertical),
    Primitive::Prefix(Prefix::Long),
    Primitive::Prefix(Prefix::Outer),
    Primitive::IgnoreSpaces,
    Primitive::Interaction(Interaction::Batch),
    Primitive::Interaction(Interaction::Nonstop),
    Primitive::Interaction(Interaction::Scroll),
    Primitive::Interaction(Interaction::Errorstop),
    Primitive::Definition(DefinitionKind::Plain),
    Primitive::Definition(DefinitionKind::Expanded),
    Primitive::Definition(DefinitionKind::Global),
    Primitive::Definition(DefinitionKind::GlobalExpanded),
    Primitive::Text(TextUse::Message),
    Primitive::Text(TextUse::ErrorMessage),
    Primitive::Text(TextUse::UpperCase),
    Primitive::Text(TextUse::LowerCase),
    Primitive::After(AfterKind::Group),
    Primitive::After(AfterKind::Assignment),
    Primitive::FutureLet,
    Primitive::Box(BoxKind::Vertical),
    Primitive::Box(BoxKind::Top),
    Primitive::BoxFrom(BoxSource::Register),
    Primitive::BoxFrom(BoxSource::Copy),
    Primitive::BoxFrom(BoxSource::Last),
    Primitive::SetBox,
    Primitive::Numbered(Numbered::Size(BoxSide::Width)),
    Primitive::Numbered(Numbered::Size(BoxSide::Height)),
    Primitive::Numbered(Numbered::Size(BoxSide::Depth)),
    Primitive::Shift(ShiftKind::Raise),
    Primitive::Shift(ShiftKind::Lower),
    Primitive::Shift(ShiftKind::Left),
    Primitive::Shift(ShiftKind::Right),
    Primitive::Rule(RuleKind::Horizontal),
    Primitive::Unbox(UnboxKind::Horizontal),
    Primitive::Unbox(UnboxKind::HorizontalCopy),
    Primitive::Unbox(UnboxKind::Vertical),
    Primitive::Unbox(UnboxKind::VerticalCopy),
    Primitive::HorizontalGlue(GlueForm::Skip),
    Primitive::HorizontalGlue(GlueForm::Fil),
    Primitive::HorizontalGlue(GlueForm::Fill),
    Primitive::HorizontalGlue(GlueForm::Both),
    Primitive::HorizontalGlue(GlueForm::Negative),
    Primitive::VerticalGlue(GlueForm::Skip),
    Primitive::VerticalGlue(GlueForm::Fil),
    Primitive::VerticalGlue(GlueForm::Fill),
    Primitive::VerticalGlue(GlueForm::Both),
    Primitive::VerticalGlue(GlueForm::Negative),
    Primitive::Penalty,
    Primitive::Remove(ItemKind::Penalty),
    Primitive::Remove(ItemKind::Kern),
    Primitive::Remove(ItemKind::Skip),
    Primitive::Last(ItemKind::Penalty),
    Primitive::Last(ItemKind::Kern),
    Primitive::Last(ItemKind::Skip),
    Primitive::Badness,
    Primitive::PrevDepth,
    Primitive::Text(TextUse::Special),
    Primitive::Leaders(LeadersKind::Aligned),
    Primitive::Leaders(LeadersKind::Centered),
    Primitive::Leaders(LeadersKind::Expanded),
    Primitive::Numbered(Numbered::Skip),
    Primitive::Numbered(Numbered::Muskip),
    Primitive::Shorthand(Shorthand::SkipRegister),
    Primitive::Shorthand(Shorthand::MuskipRegister),
    Primitive::NullFont,
    Primitive::LoadFont,
    Primitive::FontDimen,
    Primitive::FontInteger(FontNumber::Hyphen),
    Primitive::FontInteger(FontNumber::Skew),
    Primitive::FamilyFont(MathSize::Text),
    Primitive::FamilyFont(MathSize::Script),
    Primitive::FamilyFont(MathSize::ScriptScript),
    Primitive::Char,
    Primitive::SpaceFactor,
    Primitive::ItalicCorrection,
    Primitive::ControlSpace,
    Primitive::Indent(Indentation::Indented),
    Primitive::Indent(Indentation::Flush),
    Primitive::DiscretionaryHyphen,
    Primitive::PrevGraf,
    Primitive::ParShape,
    Primitive::Adjust,
    Primitive::Discretionary,
    Primitive::MathChar,
    Primitive::Atom(AtomClass::Ord),
    Primitive::Atom(AtomClass::Op),
    Primitive::Atom(AtomClass::Bin),
    Primitive::Atom(AtomClass::Rel),
    Primitive::Atom(AtomClass::Open),
    Primitive::Atom(AtomClass::Close),
    Primitive::Atom(AtomClass::Punct),
    Primitive::Atom(AtomClass::Inner),
    Primitive::Atom(AtomClass::Under),
    Primitive::Atom(AtomClass::Over),
    Primitive::Center,
    Primitive::Limits(LimitsKind::Always),
    Primitive::Limits(LimitsKind::Never),
    Primitive::Limits(LimitsKind::Displayed),
    Primitive::Style(MathStyle::Display),
    Primitive::Style(MathStyle::Text),
    Primitive::Style(MathStyle::Script),
    Primitive::Style(MathStyle::ScriptScript),
    Primitive::Choice,
    Primitive::Fraction(FractionKind::Over),
    Primitive::Fraction(FractionKind::Atop),
    Primitive::Sized(SizeKind::Above),
    Primitive::Delimited(DelimiterUse::Left),
    Primitive::Delimited(DelimiterUse::Right),
    Primitive::Delimited(DelimiterUse::Fraction(DelimitedKind::Over)),
    Primitive::Delimited(DelimiterUse::Fraction(DelimitedKind::Atop)),
    Primitive::Delimited(DelimiterUse::Fraction(DelimitedKind::Above)),
    Primitive::Coded(CodedKind::Delimiter),
    Primitive::Coded(CodedKind::Radical),
    Primitive::Coded(CodedKind::Accent),
    Primitive::Accent,
    Primitive::MathGlue,
    Primitive::Sized(SizeKind::MathKern),
    Primitive::Nonscript,
    Primitive::Text(TextUse::Patterns),
    Primitive::Text(TextUse::Hyphenation),
    Primitive::BoxFrom(BoxSource::Split),
    Primitive::Insert,
    Primitive::Text(TextUse::Mark),
    Primitive::DeadCycles,
    Primitive::Page(PageQuantity::Goal),
    Primitive::Page(PageQuantity::Total),
    Primitive::Page(PageQuantity::Stretch),
    Primitive::Page(PageQuantity::FilStretch),
    Primitive::Page(PageQuantity::FillStretch),
    Primitive::Page(PageQuantity::FilllStretch),
    Primitive::Page(PageQuantity::Shrink),
    Primitive::Page(PageQuantity::Depth),
    Primitive::Page(PageQuantity::InsertPenalties),
    Primitive::Align,
    Primitive::AlignWord(AlignWord::Cr),
    Primitive::AlignWord(AlignWord::CrCr),
    Primitive::AlignWord(AlignWord::Span),
    Primitive::AlignWord(AlignWord::Omit),
    Primitive::AlignWord(AlignWord::NoAlign),
    Primitive::EquationNumber(NumberSide::Right),
    Primitive::EquationNumber(NumberSide::Left),
    Primitive::Integer(IntegerParameter::Pretolerance),
    Primitive::Integer(IntegerParameter::Tolerance),
    Primitive::Integer(IntegerParameter::Hbadness),
    Primitive::Integer(IntegerParameter::Vbadness),
    Primitive::Integer(IntegerParameter::Linepenalty),
    Primitive::Integer(IntegerParameter::Hyphenpenalty),
    Primitive::Integer(IntegerParameter::Exhyphenpenalty),
    Primitive::Integer(IntegerParameter::Binoppenalty),
    Primitive::Integer(IntegerParameter::Relpenalty),
    Primitive::Integer(IntegerParameter::Clubpenalty),
    Primitive::Integer(IntegerParameter::Widowpenalty),
    Primitive::Integer(IntegerParameter::Displaywidowpenalty),
    Primitive::Integer(IntegerParameter::Brokenpenalty),
    Primitive::Integer(IntegerParameter::Predisplaypenalty),
    Primitive::Integer(IntegerParameter::Postdisplaypenalty),
    Primitive::Integer(IntegerParameter::Interlinepenalty),
    Primitive::Integer(IntegerParameter::Floatingpenalty),
    Primitive::Integer(IntegerParameter::Outputpenalty),
    Primitive::Integer(IntegerParameter::Doublehyphendemerits),
    Primitive::Integer(IntegerParameter::Finalhyphendemerits),
    Primitive::Integer(IntegerParameter::Adjdemerits),
    Primitive::Integer(IntegerParameter::Looseness),
    Primitive::Integer(IntegerParameter::Pausing),
    Primitive::Integer(IntegerParameter::Holdinginserts),
    Primitive::Integer(IntegerParameter::Tracingonline),
    Primitive::Integer(IntegerParameter::Tracingmacros),
    Primitive::Integer(IntegerParameter::Tracingstats),
    Primitive::Integer(IntegerParameter::Tracingparagraphs),
    Primitive::Integer(IntegerParameter::Tracingpages),
    Primitive::Integer(IntegerParameter::Tracingoutput),
    Primitive::Integer(IntegerParameter::Tracinglostchars),
    Primitive::Integer(IntegerParameter::Tracingcommands),
    Primitive::Integer(IntegerParameter::Tracingrestores),
    Primitive::Integer(IntegerParameter::Language),
    Primitive::Integer(IntegerParameter::Uchyph),
    Primitive::Integer(IntegerParameter::Lefthyphenmin),
    Primitive::Integer(IntegerParameter::Righthyphenmin),
    Primitive::Integer(IntegerParameter::Globaldefs),
    Primitive::Integer(IntegerParameter::Defaulthyphenchar),
    Primitive::Integer(IntegerParameter::Defaultskewchar),
    Primitive::Integer(IntegerParameter::Escapechar),
    Primitive::Integer(IntegerParameter::Endlinechar),
    Primitive::Integer(IntegerParameter::Newlinechar),
    Primitive::Integer(IntegerParameter::Maxdeadcycles),
    Primitive::Integer(IntegerParameter::Hangafter),
    Primitive::Integer(IntegerParameter::Fam),
    Primitive::Integer(IntegerParameter::Mag),
    Primitive::Integer(IntegerParameter::Delimiterfactor),
    Primitive::Integer(IntegerParameter::Time),
    Primitive::Integer(IntegerParameter::Day),
    Primitive::Integer(IntegerParameter::Month),
    Primitive::Integer(IntegerParameter::Year),
    Primitive::Integer(IntegerParameter::Showboxbreadth),
    Primitive::Integer(IntegerParameter::Showboxdepth),
    Primitive::Integer(IntegerParameter::Errorcontextlines),
    Primitive::Dimension(DimensionParameter::Hfuzz),
    Primitive::Dimension(DimensionParameter::Vfuzz),
    Primitive::Dimension(DimensionParameter::Overfullrule),
    Primitive::Dimension(DimensionParameter::Emergencystretch),
    Primitive::Dimension(DimensionParameter::Hsize),
    Primitive::Dimension(DimensionParameter::Vsize),
    Primitive::Dimension(DimensionParameter::Maxdepth),
    Primitive::Dimension(DimensionParameter::Splitmaxdepth),
    Primitive::Dimension(DimensionParameter::Boxmaxdepth),
    Primitive::Dimension(DimensionParameter::Lineskiplimit),
    Primitive::Dimension(DimensionParameter::Delimitershortfall),
    Primitive::Dimension(DimensionParameter::Nulldelimiterspace),
    Primitive::Dimension(DimensionParameter::Scriptspace),
    Primitive::Dimension(DimensionParameter::Mathsurround),
    Primitive::Dimension(DimensionParameter::Predisplaysize),
    Primitive::Dimension(DimensionParameter::Displaywidth),
    Primitive::Dimension(DimensionParameter::Displayindent),
    Primitive::Dimension(DimensionParameter::Parindent),
    Primitive::Dimension(DimensionParameter::Hangindent),
    Primitive::Dimension(DimensionParameter::Hoffset),
    Primitive::Dimension(DimensionParameter::Voffset),
    Primitive::Tokens(TokenParameter::Output),
    Primitive::Tokens(TokenParameter::Everypar),
    Primitive::Tokens(TokenParameter::Everymath),
    Primitive::Tokens(TokenParameter::Everydisplay),
    Primitive::Tokens(TokenParameter::Everyhbox),
    Primitive::Tokens(TokenParameter::Everyvbox),
    Primitive::Tokens(TokenParameter::Everyjob),
    Primitive::Tokens(TokenParameter::Everycr),
    Primitive::Tokens(TokenParameter::Errhelp),
    Primitive::Glue(GlueParameter::Baselineskip),
    Primitive::Glue(GlueParameter::Lineskip),
    Primitive::Glue(GlueParameter::Parskip),
    Primitive::Glue(GlueParameter::Abovedisplayskip),
    Primitive::Glue(GlueParameter::Abovedisplayshortskip),
    Primitive::Glue(GlueParameter::Belowdisplayskip),
    Primitive::Glue(GlueParameter::Belowdisplayshortskip),
    Primitive::Glue(GlueParameter::Leftskip),
    Primitive::Glue(GlueParameter::Rightskip),
    Primitive::Glue(GlueParameter::Topskip),
    Primitive::Glue(GlueParameter::Splittopskip),
    Primitive::Glue(GlueParameter::Tabskip),
    Primitive::Glue(GlueParameter::Spaceskip),
    Primitive::Glue(GlueParameter::Xspaceskip),
    Primitive::Glue(GlueParameter::Parfillskip),
    Primitive::Glue(GlueParameter::Thinmuskip),
    Primitive::Glue(GlueParameter::Medmuskip),
    Primitive::Glue(GlueParameter::Thickmuskip),
];

impl Primitive {
    /// All primitives, each once.
    #[tactic(auto, unfolding(crate::specs::Table::all))]
    pub fn all() -> &'static [Primitive]
        ensures { result.now ≡ all }
    {
        &ALL
    }

    /// The primitive's name, without its escape character.
    #[tactic(auto, unfolding(crate::specs::Table::line_of))]
    pub fn name(self) -> &'static [u8]
        ensures { result.now ≡ name_of self }
    {
        match self {
            Primitive::Relax => b"relax",
            Primitive::EndCsName => b"endcsname",
            Primitive::BeginGroup => b"begingroup",
            Primitive::EndGroup => b"endgroup",
            Primitive::Prefix(Prefix::Global) => b"global",
            Primitive::Let => b"let",
            Primitive::Arithmetic(Operation::Advance) => b"advance",
            Primitive::Arithmetic(Operation::Multiply) => b"multiply",
            Primitive::Arithmetic(Operation::Divide) => b"divide",
            Primitive::Numbered(Numbered::Count) => b"count",
            Primitive::Numbered(Numbered::Dimen) => b"dimen",
            Primitive::Numbered(Numbered::Toks) => b"toks",
            Primitive::Shorthand(Shorthand::CountRegister) => b"countdef",
            Primitive::Shorthand(Shorthand::DimenRegister) => b"dimendef",
            Primitive::Shorthand(Shorthand::ToksRegister) => b"toksdef",
            Primitive::Shorthand(Shorthand::Character) => b"chardef",
            Primitive::Shorthand(Shorthand::MathCharacter) => b"mathchardef",
            Primitive::Numbered(Numbered::Category) => b"catcode",
            Primitive::Numbered(Numbered::Code(CharacterCode::LowerCase)) => b"lccode",
            Primitive::Numbered(Numbered::Code(CharacterCode::UpperCase)) => b"uccode",
            Primitive::Numbered(Numbered::Code(CharacterCode::SpaceFactor)) => b"sfcode",
            Primitive::Numbered(Numbered::Code(CharacterCode::Math)) => b"mathcode",
            Primitive::Numbered(Numbered::Code(CharacterCode::Delimiter)) => b"delcode",
            Primitive::Box(BoxKind::Horizontal) => b"hbox",
            Primitive::Shipout => b"shipout",
            Primitive::Sized(SizeKind::Kern) => b"kern",
            Primitive::Par => b"par",
            Primitive::End => b"end",
            Primitive::Rule(RuleKind::Vertical) => b"vrule",
            Primitive::Prefix(Prefix::Long) => b"long",
            Primitive::Prefix(Prefix::Outer) => b"outer",
            Primitive::IgnoreSpaces => b"ignorespaces",
            Primitive::Interaction(Interaction::Batch) => b"batchmode",
            Primitive::Interaction(Interaction::Nonstop) => b"nonstopmode",
            Primitive::Interaction(Interaction::Scroll) => b"scrollmode",
            Primitive::Interaction(Interaction::Errorstop) => b"errorstopmode",
            Primitive::Definition(DefinitionKind::Plain) => b"def",
            Primitive::Definition(DefinitionKind::Expanded) => b"edef",
            Primitive::Definition(DefinitionKind::Global) => b"gdef",
            Primitive::Definition(DefinitionKind::GlobalExpanded) => b"xdef",
            Primitive::Text(TextUse::Message) => b"message",
            Primitive::Text(TextUse::ErrorMessage) => b"errmessage",
            Primitive::Text(TextUse::UpperCase) => b"uppercase",
            Primitive::Text(TextUse::LowerCase) => b"lowercase",
            Primitive::After(AfterKind::Group) => b"aftergroup",
            Primitive::After(AfterKind::Assignment) => b"afterassignment",
            Primitive::FutureLet => b"futurelet",
            Primitive::Box(BoxKind::Vertical) => b"vbox",
            Primitive::Box(BoxKind::Top) => b"vtop",
            Primitive::BoxFrom(BoxSource::Register) => b"box",
            Primitive::BoxFrom(BoxSource::Copy) => b"copy",
            Primitive::BoxFrom(BoxSource::Last) => b"lastbox",
            Primitive::SetBox => b"setbox",
            Primitive::Numbered(Numbered::Size(BoxSide::Width)) => b"wd",
            Primitive::Numbered(Numbered::Size(BoxSide::Height)) => b"ht",
            Primitive::Numbered(Numbered::Size(BoxSide::Depth)) => b"dp",
            Primitive::Shift(ShiftKind::Raise) => b"raise",
            Primitive::Shift(ShiftKind::Lower) => b"lower",
            Primitive::Shift(ShiftKind::Left) => b"moveleft",
            Primitive::Shift(ShiftKind::Right) => b"moveright",
            Primitive::Rule(RuleKind::Horizontal) => b"hrule",
            Primitive::Unbox(UnboxKind::Horizontal) => b"unhbox",
            Primitive::Unbox(UnboxKind::HorizontalCopy) => b"unhcopy",
            Primitive::Unbox(UnboxKind::Vertical) => b"unvbox",
            Primitive::Unbox(UnboxKind::VerticalCopy) => b"unvcopy",
            Primitive::HorizontalGlue(GlueForm::Skip) => b"hskip",
            Primitive::HorizontalGlue(GlueForm::Fil) => b"hfil",
            Primitive::HorizontalGlue(GlueForm::Fill) => b"hfill",
            Primitive::HorizontalGlue(GlueForm::Both) => b"hss",
            Primitive::HorizontalGlue(GlueForm::Negative) => b"hfilneg",
            Primitive::VerticalGlue(GlueForm::Skip) => b"vskip",
            Primitive::VerticalGlue(GlueForm::Fil) => b"vfil",
            Primitive::VerticalGlue(GlueForm::Fill) => b"vfill",
            Primitive::VerticalGlue(GlueForm::Both) => b"vss",
            Primitive::VerticalGlue(GlueForm::Negative) => b"vfilneg",
            Primitive::Penalty => b"penalty",
            Primitive::Remove(ItemKind::Penalty) => b"unpenalty",
            Primitive::Remove(ItemKind::Kern) => b"unkern",
            Primitive::Remove(ItemKind::Skip) => b"unskip",
            Primitive::Last(ItemKind::Penalty) => b"lastpenalty",
            Primitive::Last(ItemKind::Kern) => b"lastkern",
            Primitive::Last(ItemKind::Skip) => b"lastskip",
            Primitive::Badness => b"badness",
            Primitive::PrevDepth => b"prevdepth",
            Primitive::Text(TextUse::Special) => b"special",
            Primitive::Leaders(LeadersKind::Aligned) => b"leaders",
            Primitive::Leaders(LeadersKind::Centered) => b"cleaders",
            Primitive::Leaders(LeadersKind::Expanded) => b"xleaders",
            Primitive::Numbered(Numbered::Skip) => b"skip",
            Primitive::Numbered(Numbered::Muskip) => b"muskip",
            Primitive::Shorthand(Shorthand::SkipRegister) => b"skipdef",
            Primitive::Shorthand(Shorthand::MuskipRegister) => b"muskipdef",
            Primitive::NullFont => b"nullfont",
            Primitive::LoadFont => b"font",
            Primitive::FontDimen => b"fontdimen",
            Primitive::FontInteger(FontNumber::Hyphen) => b"hyphenchar",
            Primitive::FontInteger(FontNumber::Skew) => b"skewchar",
            Primitive::FamilyFont(MathSize::Text) => b"textfont",
            Primitive::FamilyFont(MathSize::Script) => b"scriptfont",
            Primitive::FamilyFont(MathSize::ScriptScript) => b"scriptscriptfont",
            Primitive::Char => b"char",
            Primitive::SpaceFactor => b"spacefactor",
            Primitive::ItalicCorrection => b"/",
            Primitive::ControlSpace => b" ",
            Primitive::Indent(Indentation::Indented) => b"indent",
            Primitive::Indent(Indentation::Flush) => b"noindent",
            Primitive::DiscretionaryHyphen => b"-",
            Primitive::PrevGraf => b"prevgraf",
            Primitive::ParShape => b"parshape",
            Primitive::Adjust => b"vadjust",
            Primitive::Discretionary => b"discretionary",
            Primitive::MathChar => b"mathchar",
            Primitive::Atom(AtomClass::Ord) => b"mathord",
            Primitive::Atom(AtomClass::Op) => b"mathop",
            Primitive::Atom(AtomClass::Bin) => b"mathbin",
            Primitive::Atom(AtomClass::Rel) => b"mathrel",
            Primitive::Atom(AtomClass::Open) => b"mathopen",
            Primitive::Atom(AtomClass::Close) => b"mathclose",
            Primitive::Atom(AtomClass::Punct) => b"mathpunct",
            Primitive::Atom(AtomClass::Inner) => b"mathinner",
            Primitive::Atom(AtomClass::Under) => b"underline",
            Primitive::Atom(AtomClass::Over) => b"overline",
            Primitive::Center => b"vcenter",
            Primitive::Limits(LimitsKind::Always) => b"limits",
            Primitive::Limits(LimitsKind::Never) => b"nolimits",
            Primitive::Limits(LimitsKind::Displayed) => b"displaylimits",
            Primitive::Style(MathStyle::Display) => b"displaystyle",
            Primitive::Style(MathStyle::Text) => b"textstyle",
            Primitive::Style(MathStyle::Script) => b"scriptstyle",
            Primitive::Style(MathStyle::ScriptScript) => b"scriptscriptstyle",
            Primitive::Choice => b"mathchoice",
            Primitive::Fraction(FractionKind::Over) => b"over",
            Primitive::Fraction(FractionKind::Atop) => b"atop",
            Primitive::Sized(SizeKind::Above) => b"above",
            Primitive::Delimited(DelimiterUse::Left) => b"left",
            Primitive::Delimited(DelimiterUse::Right) => b"right",
            Primitive::Delimited(DelimiterUse::Fraction(DelimitedKind::Over)) => b"overwithdelims",
            Primitive::Delimited(DelimiterUse::Fraction(DelimitedKind::Atop)) => b"atopwithdelims",
            Primitive::Delimited(DelimiterUse::Fraction(DelimitedKind::Above)) => {
                b"abovewithdelims"
            }
            Primitive::Coded(CodedKind::Delimiter) => b"delimiter",
            Primitive::Coded(CodedKind::Radical) => b"radical",
            Primitive::Coded(CodedKind::Accent) => b"mathaccent",
            Primitive::Accent => b"accent",
            Primitive::MathGlue => b"mskip",
            Primitive::Sized(SizeKind::MathKern) => b"mkern",
            Primitive::Nonscript => b"nonscript",
            Primitive::Text(TextUse::Patterns) => b"patterns",
            Primitive::Text(TextUse::Hyphenation) => b"hyphenation",
            Primitive::BoxFrom(BoxSource::Split) => b"vsplit",
            Primitive::Insert => b"insert",
            Primitive::Text(TextUse::Mark) => b"mark",
            Primitive::DeadCycles => b"deadcycles",
            Primitive::Page(PageQuantity::Goal) => b"pagegoal",
            Primitive::Page(PageQuantity::Total) => b"pagetotal",
            Primitive::Page(PageQuantity::Stretch) => b"pagestretch",
            Primitive::Page(PageQuantity::FilStretch) => b"pagefilstretch",
            Primitive::Page(PageQuantity::FillStretch) => b"pagefillstretch",
            Primitive::Page(PageQuantity::FilllStretch) => b"pagefilllstretch",
            Primitive::Page(PageQuantity::Shrink) => b"pageshrink",
            Primitive::Page(PageQuantity::Depth) => b"pagedepth",
            Primitive::Page(PageQuantity::InsertPenalties) => b"insertpenalties",
            Primitive::Align => b"halign",
            Primitive::AlignWord(AlignWord::Cr) => b"cr",
            Primitive::AlignWord(AlignWord::CrCr) => b"crcr",
            Primitive::AlignWord(AlignWord::Span) => b"span",
            Primitive::AlignWord(AlignWord::Omit) => b"omit",
            Primitive::AlignWord(AlignWord::NoAlign) => b"noalign",
            Primitive::EquationNumber(NumberSide::Right) => b"eqno",
            Primitive::EquationNumber(NumberSide::Left) => b"leqno",
            Primitive::Integer(parameter) => parameter.name(),
            Primitive::Dimension(parameter) => parameter.name(),
            Primitive::Tokens(parameter) => parameter.name(),
            Primitive::Glue(parameter) => parameter.name(),
        }
    }

    /// The modes in which it may stand.
    #[tactic(auto, unfolding(crate::specs::Table::line_of))]
    pub fn modes(self) -> Modes
        ensures { result ≡ modes_of self }
    {
        match self {
            Primitive::Relax | Primitive::BeginGroup | Primitive::EndGroup => Modes::All,
            Primitive::EndCsName => Modes::All,
            Primitive::Prefix(_) | Primitive::Let | Primitive::Shorthand(_) => Modes::All,
            Primitive::Arithmetic(_) | Primitive::Numbered(_) => Modes::All,
            Primitive::Integer(_) | Primitive::Dimension(_) | Primitive::Tokens(_) => Modes::All,
            Primitive::Glue(_) => Modes::All,
            Primitive::IgnoreSpaces | Primitive::Interaction(_) => Modes::All,
            Primitive::Definition(_) | Primitive::Text(_) => Modes::All,
            Primitive::After(_) | Primitive::FutureLet => Modes::All,
            Primitive::Sized(SizeKind::Kern) => Modes::All,
            Primitive::Sized(SizeKind::MathKern | SizeKind::Above) => Modes::Math,
            Primitive::Box(_) | Primitive::Shipout => Modes::All,
            Primitive::BoxFrom(_) | Primitive::SetBox => Modes::All,
            Primitive::Penalty | Primitive::Remove(_) | Primitive::Leaders(_) => Modes::All,
            Primitive::Last(_) | Primitive::Badness => Modes::All,
            Primitive::Shift(ShiftKind::Raise | ShiftKind::Lower) => Modes::OutsideVertical,
            Primitive::Shift(ShiftKind::Left | ShiftKind::Right) => Modes::OnlyVertical,
            Primitive::PrevDepth => Modes::OnlyVertical,
            Primitive::Unbox(UnboxKind::Horizontal | UnboxKind::HorizontalCopy) => {
                Modes::NotVertical
            }
            Primitive::Unbox(UnboxKind::Vertical | UnboxKind::VerticalCopy) => Modes::InVertical,
            Primitive::HorizontalGlue(_) => Modes::NotVertical,
            Primitive::VerticalGlue(_) | Primitive::Align => Modes::InVertical,
            Primitive::AlignWord(_) => Modes::All,
            Primitive::Rule(RuleKind::Horizontal) => Modes::InVertical,
            Primitive::Rule(RuleKind::Vertical) => Modes::NotVertical,
            Primitive::NullFont | Primitive::LoadFont => Modes::All,
            Primitive::FontDimen | Primitive::FontInteger(_) => Modes::All,
            Primitive::FamilyFont(_) => Modes::All,
            Primitive::Char | Primitive::ControlSpace => Modes::NotVertical,
            Primitive::DiscretionaryHyphen | Primitive::Discretionary => Modes::NotVertical,
            Primitive::Indent(_) | Primitive::PrevGraf | Primitive::ParShape => Modes::All,
            Primitive::Insert | Primitive::DeadCycles | Primitive::Page(_) => Modes::All,
            Primitive::ItalicCorrection | Primitive::Adjust => Modes::OutsideVertical,
            Primitive::MathChar | Primitive::Atom(_) | Primitive::Center => Modes::Math,
            Primitive::Limits(_) | Primitive::Style(_) | Primitive::Choice => Modes::Math,
            Primitive::Fraction(_) | Primitive::MathGlue | Primitive::Nonscript => Modes::Math,
            Primitive::Delimited(_) | Primitive::Coded(_) => Modes::Math,
            Primitive::Accent => Modes::InHorizontal,
            Primitive::EquationNumber(_) => Modes::Math,
            Primitive::SpaceFactor => Modes::OnlyHorizontal,
            Primitive::Par => Modes::NotMath,
            Primitive::End => Modes::Pages,
        }
    }

    /// The primitive of this name, and None exactly where there is none. It goes through them all: once they are in a
    /// map of names they are found there.
    pub fn of_name(name: &[u8]) -> Option<Primitive>
        ensures named { IfSome result (λ p. name_of p ≡ name.now) }
        ensures each { (p : Primitive) → name_of p ≡ name.now → result ≡ Some p }
    {
        first_named(Primitive::all(), name)
    }
}

/// The first of these primitives that has this name.
fn first_named(primitives: &[Primitive], name: &[u8]) -> Option<Primitive>
    ensures { result ≡ named primitives.now name.now }
{
    for primitive in primitives {
        if primitive.name() == name {
            return Some(*primitive);
        }
    }
    None
}
