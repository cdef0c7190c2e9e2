//! What a scan of a command still needs, and what taking a token to one gives.
use crate::types::SizeUse;
use tx_assign::AssignScan;
use tx_prim::{AfterKind, DefinitionKind, LeadersKind, RuleKind, Shorthand};
use tx_rule::RuleScan;
use tx_scan::DimenScan;
use tx_seen::TexError;
use tx_shape::{LoadScan, ShapeScan};

/// The part of a command that comes next.
#[derive(Clone, Copy)]
pub enum Stage {
    /// Its first token.
    Start,
    /// An assignment.
    Assign,
    /// The name that \chardef or its kin defines.
    Name(Shorthand),
    /// The name that \def or its kin defines.
    MacroName(DefinitionKind),
    /// The name that \futurelet defines.
    FutureName,
    /// The name that \font defines.
    FontName,
    /// What stands behind that name.
    Loading,
    /// The second of the two tokens behind that.
    SecondToken,
    /// The token that is kept for this.
    KeptToken(AfterKind),
    /// The size that is for this.
    Sized(SizeUse),
    /// The sides of a rule of this kind.
    Rule(RuleKind),
    /// The rule or the box that such leaders repeat, with spaces and \relax before it.
    Leaders(LeadersKind),
    /// The sides of that rule.
    LeadersRule(LeadersKind),
    /// What a box, or what is done with one, takes, and its kin.
    Shape,
    /// Spaces that are skipped.
    Spaces,
}

/// What an entry of an alignment, or what stands before a row, begins with (TeX: The Program, sections 785 and 791).
#[derive(Clone, Copy)]
pub enum RowStart {
    /// A space, or \crcr before a row: nothing yet.
    Skipped,
    /// \noalign.
    NoAlign,
    /// The end-group token of the alignment.
    End,
    /// \omit.
    Omit,
    /// The entry itself.
    Entry,
}

/// What a token of a preamble is (TeX: The Program, section 782).
#[derive(Clone, Copy)]
pub enum PreamblePart {
    /// \span.
    Span,
    /// \tabskip, which is assigned.
    Tabskip,
    /// A token of a column's parts, or what ends or divides these.
    Token,
}

/// The scans of the parts of commands. They are begun anew in place, so that a token moves none of them.
#[derive(Drop)]
pub struct Scans {
    pub stage: Stage,
    pub assignment: AssignScan,
    pub size: DimenScan,
    pub rule: RuleScan,
    pub shape: ShapeScan,
    pub loading: LoadScan,
}

/// Where a command stands that is whole. It is no part of an answer, so that this isn't larger than a token.
#[derive(Clone, Copy)]
pub enum Whole {
    /// In the scan of assignments, which has made it.
    Assignment,
    /// Beside the scans.
    Command,
}

/// What taking a token to a command gives.
#[derive(Clone, Copy)]
pub enum Taken {
    /// The command isn't whole yet.
    More,
    /// It is, and stands where the caller wants it.
    Whole,
    /// The tokens are no command.
    Wrong(TexError),
}
