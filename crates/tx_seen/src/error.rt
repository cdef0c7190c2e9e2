//! What stops a run for good.
ghost use Rattle.std.specs.Prelude.{◌≡◌, ◌⊎◌, Some, IfSome};
ghost use Rattle.tx_seen.specs.declared.error.TexError.{TexError};
ghost use Rattle.tx_seen.specs.declared.error.TexError.TheVariants.{ArithmeticOverflow};
ghost use Rattle.tx_seen.specs.Errors.{all, number_of, numbered};

use thiserror::Error;

/// The error that ends a run; the first one always does. Its text tells the user what it means, and stands in
/// docs/FORMATS.md too; where it says less than when exactly the error comes, that stands above it.
#[derive(Clone, Copy, Debug, Error)]
pub enum TexError {
    #[error("a character that no text may have (category 15)")]
    InvalidCharacter,
    /// Where it is to be expanded or carried out.
    #[error("a name or an active character without a meaning")]
    Undefined,
    /// The token begins none.
    #[error("a number is missing")]
    MissingNumber,
    #[error("a unit is missing, or a word or relation that has to stand here")]
    MissingUnit,
    #[error("a number that is out of the range of its use")]
    NumberOutOfRange,
    /// A scanned one is past 2^30-1 sp.
    #[error("a dimension of 16384pt or more")]
    DimensionTooLarge,
    /// A scanned one is past 2^31-1.
    #[error("an integer above 2147483647")]
    IntegerTooLarge,
    /// A size or a page leaves its range.
    #[error("a result, a size or a place out of its range, or a division by 0")]
    SizeOutOfRange,
    /// A sum, a product or a quotient leaves its range, or the divisor is 0. It has the number of the one before.
    #[error("a result, a size or a place out of its range, or a division by 0")]
    ArithmeticOverflow,
    /// By \errmessage.
    #[error("the document itself reports an error")]
    ErrorMessage,
    #[error("a prefix, \\advance, \\the or the like before what it can't be applied to")]
    NoAssignment,
    #[error("the end of a group that wasn't begun, or was begun in another way")]
    ExtraGroupEnd,
    #[error("a macro's use that doesn't fit its definition")]
    UseDiffers,
    /// \par in an argument of a macro that isn't \long.
    #[error("the end of a paragraph in a macro's argument")]
    ParagraphInArgument,
    #[error("the end of a group in a macro's argument, without its begin")]
    GroupEndInArgument,
    #[error("\\else, \\or or \\fi without its conditional")]
    ExtraConditionalWord,
    #[error("the end of a file, or an \\outer macro, in text that is skipped")]
    IncompleteConditional,
    /// Also in a preamble.
    #[error("the end of a file, or an \\outer macro, in an argument, a definition or the like")]
    IncompleteText,
    #[error("the begin of a group is missing")]
    MissingBeginGroup,
    #[error("a name is missing")]
    MissingName,
    #[error("there is no such file")]
    FileAbsent,
    /// It is absent or broken, its size is out of range, or it would be the 256th font.
    #[error("a font that can't be loaded")]
    BadFont,
    /// Those of a definition don't count up from #1, or its body names one that it hasn't.
    #[error("parameters that aren't #1, #2 and so on, or one that isn't there")]
    BadParameter,
    /// Also where \endcsname stands alone.
    #[error("\\csname and \\endcsname don't enclose characters alone")]
    BadName,
    /// In this mode.
    #[error("a command or character that may not stand here")]
    NotAllowed,
    #[error("boxes that nest more than 500 deep")]
    TooDeep,
    /// A 256th would be.
    #[error("more than 255 groups are open")]
    TooManyGroups,
    #[error("a page is complete while \\box255 is in use")]
    OccupiedPageBox,
    #[error("\\output doesn't end with its group, or leaves \\box255 in use")]
    UnbalancedOutput,
    #[error("\\output ran too often without shipping a page")]
    TooManyDeadCycles,
    #[error("shrinking without limit where it may not be")]
    InfiniteShrink,
    /// A part of it can't stand where it does, or lacks its font.
    #[error("a formula that isn't one")]
    BadFormula,
    /// An alignment character is out of place, or a preamble is wrong.
    #[error("an alignment whose columns, cells or rows don't fit together")]
    MisplacedAlignment,
    /// \patterns or \hyphenation holds what it may not, or comes too late.
    #[error("patterns or exceptions of hyphenation that aren't ones")]
    BadHyphenation,
    #[error("a box is missing, or is of another kind than is wanted")]
    MissingBox,
    /// Or it changed after its first use.
    #[error("a magnification that isn't 1 to 32768, or isn't that of the first page")]
    BadMagnification,
    /// The main file has ended and no \end was carried out.
    #[error("the document ended without \\end")]
    NoEnd,
    /// A delimiter is needed and isn't there.
    #[error("a delimiter is missing")]
    MissingDelimiter,
}

/// All errors, in the order of their numbers.
const ALL: [TexError; 38] = [
    TexError::InvalidCharacter,
    TexError::Undefined,
    TexError::MissingNumber,
    TexError::MissingUnit,
    TexError::NumberOutOfRange,
    TexError::DimensionTooLarge,
    TexError::IntegerTooLarge,
    TexError::SizeOutOfRange,
    TexError::ArithmeticOverflow,
    TexError::ErrorMessage,
    TexError::NoAssignment,
    TexError::ExtraGroupEnd,
    TexError::UseDiffers,
    TexError::ParagraphInArgument,
    TexError::GroupEndInArgument,
    TexError::ExtraConditionalWord,
    TexError::IncompleteConditional,
    TexError::IncompleteText,
    TexError::MissingBeginGroup,
    TexError::MissingName,
    TexError::FileAbsent,
    TexError::BadFont,
    TexError::BadParameter,
    TexError::BadName,
    TexError::NotAllowed,
    TexError::TooDeep,
    TexError::TooManyGroups,
    TexError::OccupiedPageBox,
    TexError::UnbalancedOutput,
    TexError::TooManyDeadCycles,
    TexError::InfiniteShrink,
    TexError::BadFormula,
    TexError::MisplacedAlignment,
    TexError::BadHyphenation,
    TexError::MissingBox,
    TexError::BadMagnification,
    TexError::NoEnd,
    TexError::MissingDelimiter,
];

impl TexError {
    /// The error's number, as a run prints it.
    pub fn number(self) -> u8
        ensures { result ≡ number_of self }
    {
        match self {
            TexError::InvalidCharacter => 1,
            TexError::Undefined => 2,
            TexError::MissingNumber => 3,
            TexError::MissingUnit => 4,
            TexError::NumberOutOfRange => 5,
            TexError::DimensionTooLarge => 6,
            TexError::IntegerTooLarge => 7,
            TexError::SizeOutOfRange => 8,
            TexError::ArithmeticOverflow => 8,
            TexError::ErrorMessage => 9,
            TexError::NoAssignment => 10,
            TexError::ExtraGroupEnd => 11,
            TexError::UseDiffers => 12,
            TexError::ParagraphInArgument => 13,
            TexError::GroupEndInArgument => 14,
            TexError::ExtraConditionalWord => 15,
            TexError::IncompleteConditional => 16,
            TexError::IncompleteText => 17,
            TexError::MissingBeginGroup => 18,
            TexError::MissingName => 19,
            TexError::FileAbsent => 20,
            TexError::BadFont => 21,
            TexError::BadParameter => 22,
            TexError::BadName => 23,
            TexError::NotAllowed => 24,
            TexError::TooDeep => 25,
            TexError::TooManyGroups => 26,
            TexError::OccupiedPageBox => 27,
            TexError::UnbalancedOutput => 28,
            TexError::TooManyDeadCycles => 29,
            TexError::InfiniteShrink => 30,
            TexError::BadFormula => 31,
            TexError::MisplacedAlignment => 32,
            TexError::BadHyphenation => 33,
            TexError::MissingBox => 34,
            TexError::BadMagnification => 35,
            TexError::NoEnd => 36,
            TexError::MissingDelimiter => 39,
        }
    }
    /// All errors, each once.
    #[tactic(auto, unfolding(crate::specs::Errors::all))]
    pub fn all() -> &'static [TexError]
        ensures { result.now ≡ all }
    {
        &ALL
    }

    /// The error of this number, and None exactly where there is none. Of the two that have the number 8 it is the first.
    pub fn of_number(number: u8) -> Option<TexError>
        ensures numbered { IfSome result (λ e. number_of e ≡ number) }
        ensures each { (e : TexError) → number_of e ≡ number → (result ≡ Some e) ⊎ (e ≡ ArithmeticOverflow) }
    {
        first_numbered(TexError::all(), number)
    }
}

/// The first of these errors that has this number.
fn first_numbered(errors: &[TexError], number: u8) -> Option<TexError>
    ensures { result ≡ numbered errors.now number }
{
    for error in errors {
        if error.number() == number {
            return Some(*error);
        }
    }
    None
}
