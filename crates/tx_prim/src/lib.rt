//! TeX's primitives: the commands and parameters with which INITEX begins. One table says what each is called and in which
//! modes it may stand; the parameters stand in the order of The TeXbook, with the values that they begin with.
//!
//! Proved: each primitive's name and modes are those of one table, and the name leads back to it. Only tested: that the
//! table is Knuth's, against `tex -ini`.
//!
//! Read `modes`, `family`, `integer`, `dimension`, `glue` and `tokens`, then `primitive`, and `expandable`, those that are
//! expanded.
#![tactic(auto)]

mod dimension;
mod expandable;
mod family;
mod glue;
mod integer;
mod modes;
mod primitive;
mod tokens;

pub use dimension::DimensionParameter;
pub use expandable::{BoxTest, CondWord, Conversion, Expandable, MarkKind, Test};
pub use family::{
    AfterKind, AlignWord, AtomClass, AtomPart, BoxKind, BoxSide, BoxSource, BreakText,
    CharacterCode, CodedKind, DefinitionKind, DelimitedKind, DelimiterUse, EntryEnd, FontNumber,
    FractionKind, GlueForm, Indentation, Interaction, ItemKind, LeadersKind, LimitsKind, MathSize,
    MathStyle, NumberSide, Numbered, Operation, PageQuantity, Prefix, RuleKind, ShiftKind,
    Shorthand, SizeKind, TextUse, UnboxKind,
};
pub use glue::GlueParameter;
pub use integer::{IntegerParameter, Moment};
pub use modes::{Mode, ModeTest, Modes, Standing};
pub use primitive::Primitive;
pub use tokens::TokenParameter;
