//! What kinds of atoms there are, and the characters of families (TeX: The Program, sections 681 to 687); delimiters, and what a
//! fraction is beside its lists (section 683).

/// Where the limits of a large operator stand (TeX: The Program, section 682).
#[derive(Clone, Copy, PartialEq, Eq)]
pub enum Limits {
    /// \displaylimits: above and below it in display style, behind it in all others.
    Displayed,
    /// \limits: above and below it.
    Always,
    /// \nolimits: behind it.
    Never,
}

/// A character of a family (TeX: The Program, section 681). Families are numbered from 0 to 15.
#[derive(Clone, Copy, PartialEq, Eq)]
pub struct MathCharacter {
    pub family: u8,
    pub code: u8,
}

/// A delimiter (TeX: The Program, section 683): the characters from which it is looked for, first the small one. One whose family
/// and code are 0 is none.
#[derive(Clone, Copy, PartialEq, Eq)]
pub struct Delimiter {
    pub small: MathCharacter,
    pub large: MathCharacter,
}

/// What an atom is (The TeXbook, chapter 17; TeX: The Program, sections 682 and 687): one of eight classes, or an Ord with a line
/// or at another height, below a sign of a radical or below an accent.
#[derive(Clone, Copy, PartialEq, Eq)]
pub enum AtomKind {
    /// An ordinary one, \mathord.
    Ord,
    /// A large operator, \mathop.
    Op(Limits),
    /// A binary operation, \mathbin.
    Bin,
    /// A relation, \mathrel.
    Rel,
    /// An opening, \mathopen.
    Open,
    /// A closing, \mathclose.
    Close,
    /// Punctuation, \mathpunct.
    Punct,
    /// An inner formula, \mathinner.
    Inner,
    /// \overline.
    Over,
    /// \underline.
    Under,
    /// \vcenter, whose nucleus is a vertical box.
    Center,
    /// \radical, whose nucleus stands behind this sign and below a line.
    Radical(Delimiter),
    /// \mathaccent, whose nucleus stands below this accent.
    Accent(MathCharacter),
}

/// What a fraction is beside its lists (TeX: The Program, section 683): how thick its line is in sp, None where the fonts tell it,
/// and the delimiters on both sides.
#[derive(Clone, Copy)]
pub struct FractionHead {
    pub thickness: Option<i32>,
    pub left: Delimiter,
    pub right: Delimiter,
}

/// The places of an atom.
#[derive(Clone, Copy)]
pub enum Place {
    /// Its nucleus.
    Nucleus,
    /// Its superscript.
    Superscript,
    /// Its subscript.
    Subscript,
}
