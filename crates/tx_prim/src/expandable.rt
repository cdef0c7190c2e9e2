//! The expandable primitives: those that are replaced by other tokens before a command is carried out.
ghost use Rattle.std.specs.Prelude.{◌≡◌, Some, IfSome};
ghost use Rattle.tx_prim.specs.declared.expandable.Expandable.{Expandable};
ghost use Rattle.tx_prim.specs.Expandables.{all, name_of, named};

use crate::modes::ModeTest;

/// What is printed as tokens (TeX: The Program, section 468).
#[derive(Clone, Copy, PartialEq, Eq)]
pub enum Conversion {
    /// \number.
    Number,
    /// \romannumeral.
    RomanNumeral,
    /// \string: a token.
    Token,
    /// \meaning: what a token means.
    Meaning,
    /// \jobname.
    JobName,
    /// \fontname: a font's name.
    FontName,
}

/// What a conditional tests of a box register (TeX: The Program, section 505).
#[derive(Clone, Copy, PartialEq, Eq)]
pub enum BoxTest {
    /// \ifvoid: whether it is void.
    Void,
    /// \ifhbox: whether it holds a horizontal box.
    Horizontal,
    /// \ifvbox: whether it holds a vertical box.
    Vertical,
}

/// What a conditional tests (TeX: The Program, section 487).
#[derive(Clone, Copy, PartialEq, Eq)]
pub enum Test {
    /// \if: whether two tokens have the same character code.
    Character,
    /// \ifcat: the same category.
    Category,
    /// \ifnum: a relation of two integers.
    Number,
    /// \ifdim: a relation of two dimensions.
    Dimension,
    /// \ifodd.
    Odd,
    /// \ifvmode and its kin: the mode.
    Mode(ModeTest),
    /// \ifvoid and its kin: a box register, whose number follows.
    Box(BoxTest),
    /// \ifx: whether two tokens have the same meaning.
    Same,
    /// \iftrue and \iffalse.
    True,
    False,
    /// \ifcase: an integer chooses the branch.
    Case,
}

/// What may end a branch of a conditional (The TeXbook, chapter 20).
#[derive(Clone, Copy, PartialEq, Eq)]
pub enum CondWord {
    Else,
    Or,
    Fi,
}

/// A mark of the last page, or of the last split (The TeXbook, chapter 23).
#[derive(Clone, Copy, PartialEq, Eq)]
pub enum MarkKind {
    /// \topmark: the last one before the page.
    Top,
    /// \firstmark and \botmark: the first and the last one on it.
    First,
    Bottom,
    /// \splitfirstmark and \splitbotmark: those of what \vsplit split off.
    SplitFirst,
    SplitBottom,
}

/// A primitive that is expanded (The TeXbook, chapter 20; TeX: The Program, section 366).
#[derive(Clone, Copy, PartialEq, Eq)]
pub enum Expandable {
    /// \expandafter.
    ExpandAfter,
    /// \noexpand.
    NoExpand,
    /// \csname.
    CsName,
    /// What is printed as tokens, as \number.
    Convert(Conversion),
    /// \the.
    The,
    /// \input.
    Input,
    /// \endinput.
    EndInput,
    /// A conditional, by what it tests, as \ifnum.
    Test(Test),
    /// \else, \or and \fi.
    Word(CondWord),
    /// A mark, as \topmark.
    Mark(MarkKind),
}

/// All of them, in the order of their table.
const ALL: [Expandable; 36] = [
    Expandable::ExpandAfter,
    Expandable::NoExpand,
    Expandable::CsName,
    Expandable::Convert(Conversion::Token),
    Expandable::Convert(Conversion::Number),
    Expandable::Convert(Conversion::RomanNumeral),
    Expandable::Convert(Conversion::Meaning),
    Expandable::Convert(Conversion::JobName),
    Expandable::Convert(Conversion::FontName),
    Expandable::The,
    Expandable::Input,
    Expandable::EndInput,
    Expandable::Test(Test::Character),
    Expandable::Test(Test::Category),
    Expandable::Test(Test::Number),
    Expandable::Test(Test::Dimension),
    Expandable::Test(Test::Odd),
    Expandable::Test(Test::Mode(ModeTest::Vertical)),
    Expandable::Test(Test::Mode(ModeTest::Horizontal)),
    Expandable::Test(Test::Mode(ModeTest::Math)),
    Expandable::Test(Test::Mode(ModeTest::Inner)),
    Expandable::Test(Test::Box(BoxTest::Void)),
    Expandable::Test(Test::Box(BoxTest::Horizontal)),
    Expandable::Test(Test::Box(BoxTest::Vertical)),
    Expandable::Test(Test::Same),
    Expandable::Test(Test::True),
    Expandable::Test(Test::False),
    Expandable::Test(Test::Case),
    Expandable::Word(CondWord::Else),
    Expandable::Word(CondWord::Or),
    Expandable::Word(CondWord::Fi),
    Expandable::Mark(MarkKind::Top),
    Expandable::Mark(MarkKind::First),
    Expandable::Mark(MarkKind::Bottom),
    Expandable::Mark(MarkKind::SplitFirst),
    Expandable::Mark(MarkKind::SplitBottom),
];

impl Expandable {
    /// All expandable primitives, each once.
    #[tactic(auto, unfolding(crate::specs::Expandables::all))]
    pub fn all() -> &'static [Expandable]
        ensures { result.now ≡ all }
    {
        &ALL
    }

    /// The primitive's name, without its escape character.
    #[tactic(auto, unfolding(crate::specs::Expandables::name_of))]
    pub fn name(self) -> &'static [u8]
        ensures { result.now ≡ name_of self }
    {
        match self {
            Expandable::ExpandAfter => b"expandafter",
            Expandable::NoExpand => b"noexpand",
            Expandable::CsName => b"csname",
            Expandable::Convert(Conversion::Token) => b"string",
            Expandable::Convert(Conversion::Number) => b"number",
            Expandable::Convert(Conversion::RomanNumeral) => b"romannumeral",
            Expandable::Convert(Conversion::Meaning) => b"meaning",
            Expandable::Convert(Conversion::JobName) => b"jobname",
            Expandable::Convert(Conversion::FontName) => b"fontname",
            Expandable::The => b"the",
            Expandable::Input => b"input",
            Expandable::EndInput => b"endinput",
            Expandable::Test(Test::Character) => b"if",
            Expandable::Test(Test::Category) => b"ifcat",
            Expandable::Test(Test::Number) => b"ifnum",
            Expandable::Test(Test::Dimension) => b"ifdim",
            Expandable::Test(Test::Odd) => b"ifodd",
            Expandable::Test(Test::Mode(ModeTest::Vertical)) => b"ifvmode",
            Expandable::Test(Test::Mode(ModeTest::Horizontal)) => b"ifhmode",
            Expandable::Test(Test::Mode(ModeTest::Math)) => b"ifmmode",
            Expandable::Test(Test::Mode(ModeTest::Inner)) => b"ifinner",
            Expandable::Test(Test::Box(BoxTest::Void)) => b"ifvoid",
            Expandable::Test(Test::Box(BoxTest::Horizontal)) => b"ifhbox",
            Expandable::Test(Test::Box(BoxTest::Vertical)) => b"ifvbox",
            Expandable::Test(Test::Same) => b"ifx",
            Expandable::Test(Test::True) => b"iftrue",
            Expandable::Test(Test::False) => b"iffalse",
            Expandable::Test(Test::Case) => b"ifcase",
            Expandable::Word(CondWord::Else) => b"else",
            Expandable::Word(CondWord::Or) => b"or",
            Expandable::Word(CondWord::Fi) => b"fi",
            Expandable::Mark(MarkKind::Top) => b"topmark",
            Expandable::Mark(MarkKind::First) => b"firstmark",
            Expandable::Mark(MarkKind::Bottom) => b"botmark",
            Expandable::Mark(MarkKind::SplitFirst) => b"splitfirstmark",
            Expandable::Mark(MarkKind::SplitBottom) => b"splitbotmark",
        }
    }

    /// The expandable primitive of this name, and None exactly where there is none. It goes through them all: once they are
    /// in a map of names they are found there.
    pub fn of_name(name: &[u8]) -> Option<Expandable>
        ensures named { IfSome result (λ e. name_of e ≡ name.now) }
        ensures each { (e : Expandable) → name_of e ≡ name.now → result ≡ Some e }
    {
        first_named(Expandable::all(), name)
    }
}

/// The first of these that has this name.
fn first_named(expandables: &[Expandable], name: &[u8]) -> Option<Expandable>
    ensures { result ≡ named expandables.now name.now }
{
    for expandable in expandables {
        if expandable.name() == name {
            return Some(*expandable);
        }
    }
    None
}
