//! Why a script is refused, and where.
ghost use Rattle.std.specs.Prelude.{◌≡◌};
ghost use Rattle.tx_script.specs.Numbers.{number_of};
ghost use Rattle.tx_script.specs.declared.error.Fault.TheVariants as faults;
ghost use Rattle.tx_script.specs.declared.error.ScriptError.TheVariants as errors;

use std::alloc::AllocError;
use thiserror::Error;

/// What the bytes of a script's text, or of a request's, belong to.
#[derive(Clone, Copy, Debug)]
pub enum Rule {
    /// The script's file, which is absent: for callers, since `read_script` is given the bytes.
    File,
    /// The word that begins a command, and the space after it.
    Word,
    /// A number, and the space after it.
    Number,
    /// A name, and the LF after it.
    Name,
    /// The bytes that an edit puts in.
    Put,
    /// The LF after those.
    LineFeed,
    /// How many changes a batch has, and the LF after it.
    Count,
    /// The number of a page, and the LF after it: for requests, since no script asks for a page.
    Page,
}

impl Rule {
    /// The number by which a refusal names the rule: 1 to 8, in their order.
    pub fn number(self) -> u8
        ensures { result ≡ number_of self }
    {
        match self {
            Rule::File => 1,
            Rule::Word => 2,
            Rule::Number => 3,
            Rule::Name => 4,
            Rule::Put => 5,
            Rule::LineFeed => 6,
            Rule::Count => 7,
            Rule::Page => 8,
        }
    }
}

/// Why no script was read.
#[derive(Clone, Copy, Debug, Error)]
pub enum ScriptError {
    /// The bytes are no script's text: the first `place` of them begin one, no more of them do, and what would have to
    /// come there is of this rule.
    #[error("script refused at {place}, rule {}", .rule.number())]
    BadScript { place: u64, rule: Rule },
    /// There was no memory left.
    #[error("out of memory")]
    OutOfMemory,
}

impl From<AllocError> for ScriptError {
    ghost from_gives = { λ _ e. e ≡ errors.OutOfMemory };

    fn from(_: AllocError) -> ScriptError {
        ScriptError::OutOfMemory
    }
}

/// Where reading ended: before the last `left` bytes, at an element of this rule.
#[derive(Clone, Copy)]
pub struct Broken {
    pub left: usize,
    pub rule: Rule,
}

/// Why an element or a command was not read.
#[derive(Clone, Copy)]
pub enum Fault {
    Broken(Broken),
    OutOfMemory,
}

impl From<AllocError> for Fault {
    ghost from_gives = { λ _ e. e ≡ faults.OutOfMemory };

    fn from(_: AllocError) -> Fault {
        Fault::OutOfMemory
    }
}
