//! Groups that are open (TeX: The Program, sections 268 to 271).

use crate::parts::Parts;
use std::alloc::AllocError;
use tx_list::Kept;
use tx_prim::{AtomPart, BreakText, MathStyle, NumberSide};

/// What opened a group, which has to be closed by the same (TeX: The Program, section 269).
#[derive(Clone, Copy, PartialEq, Eq)]
pub enum GroupKind {
    /// A character that begins a group.
    Simple,
    /// The brace after \hbox, \vbox and \vtop.
    HorizontalBox,
    VerticalBox,
    TopBox,
    /// \begingroup.
    SemiSimple,
    /// The brace before this text of \discretionary.
    Discretionary(BreakText),
    /// The `$` before a formula in a text.
    MathShift,
    /// The two `$` before a displayed formula.
    Display,
    /// \eqno, or \leqno.
    EquationNumber(NumberSide),
    /// The brace before this part of an atom.
    MathPart(AtomPart),
    /// The brace before the list of \mathchoice for this style.
    MathChoice(MathStyle),
    /// \left and the delimiter of this number.
    MathLeft(u32),
    /// The brace behind \insert and this class.
    Insert(u8),
    /// The brace that \output's tokens begin with.
    Output,
    /// The brace behind \halign.
    Align,
    /// An entry of an alignment, or entries that \span joins.
    Entry,
    /// The brace behind \noalign.
    NoAlign,
}

/// A group, and the table as it stands outside it.
#[derive(Drop)]
pub struct Group {
    pub(crate) kind: GroupKind,
    pub(crate) outside: Parts,
}

impl Kept for Group {
    fn share(&self) -> Result<Self, AllocError> {
        Ok(Group {
            kind: self.kind,
            outside: self.outside.share()?,
        })
    }

    fn same(&self, other: &Self) -> bool {
        self.kind == other.kind && self.outside.same(&other.outside)
    }
}
