//! Why a DVI file is refused, and where.
ghost use Rattle.std.specs.Prelude.{◌≡◌};
ghost use Rattle.tx_dvitype.specs.Rules.{number_of};
ghost use Rattle.tx_dvitype.specs.declared.error.DviError.TheVariants as errors;

use std::alloc::AllocError;
use thiserror::Error;

/// What the bytes of a DVI file belong to.
#[derive(Clone, Copy, Debug)]
pub enum DviRule {
    /// The file, which is absent: for callers, since `Reader::read` is given the bytes.
    File,
    /// The preamble.
    Preamble,
    /// bop with its counts and its pointer, which begins a page. Behind a page post may stand in its place.
    Page,
    /// A command of a page, or the eop behind them.
    Command,
    /// post, and the definitions behind it.
    Postamble,
    /// post_post, and all that follows.
    End,
}

impl DviRule {
    /// The number by which a refusal names the rule: 1 to 6, in their order.
    pub fn number(self) -> u8
        ensures { result ≡ number_of self }
    {
        match self {
            DviRule::File => 1,
            DviRule::Preamble => 2,
            DviRule::Page => 3,
            DviRule::Command => 4,
            DviRule::Postamble => 5,
            DviRule::End => 6,
        }
    }
}

/// Why no pages were read.
#[derive(Clone, Copy, Debug, Error)]
pub enum DviError {
    /// The bytes are no DVI file: the first `place` of them begin one, no more of them do, and what would have to come
    /// there is of this rule.
    #[error("dvi refused at {place}, rule {}", .rule.number())]
    BadDvi { place: u64, rule: DviRule },
    /// There was no memory left.
    #[error("out of memory")]
    OutOfMemory,
}

impl From<AllocError> for DviError {
    ghost from_gives = { λ _ e. e ≡ errors.OutOfMemory };

    fn from(_: AllocError) -> DviError {
        DviError::OutOfMemory
    }
}
