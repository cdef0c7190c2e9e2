//! How far the use of a macro has come.
ghost use Rattle.std.specs.Prelude.{◌≡◌, []};

use std::alloc::{AllocError, Global};
use tx_list::Items;
use tx_seen::TexError;
use tx_toklist::{Lists, Toks};

/// The table of a delimiter. Contracts see the list of its numbers.
pub(crate) type Table = Items<usize>;

/// What the use of a macro waits for.
#[derive(Clone, Copy)]
pub(crate) enum Awaited {
    /// The tokens before the first parameter, of which so many are met.
    Before { met: usize },
    /// The rest of an argument.
    Argument(Kind),
    /// Nothing more.
    Over,
}

/// What an argument is that is being taken.
#[derive(Clone, Copy)]
pub(crate) enum Kind {
    /// Undelimited; nothing but spaces was met.
    Undelimited,
    /// Undelimited and a group, in which so many further groups are open.
    Group { depth: usize },
    /// Delimited: so many of the last tokens agree with the first ones of the delimiter, and so many groups are open.
    Delimited { agreed: usize, depth: usize },
}

/// What the use of a macro has gathered.
#[derive(Drop)]
pub(crate) struct Gathered {
    /// The tokens taken.
    pub taken: Toks,
    /// How many of them stand before the argument that is being taken.
    pub from: usize,
    /// The arguments that are whole.
    pub arguments: Lists,
    /// The table of the delimiter of the argument that is being taken.
    pub borders: Table,
}

impl Gathered {
    /// Nothing; takes no memory.
    pub(crate) fn new(alloc: Global) -> Gathered
        ensures { result ≡ record { taken = []; from = 0; arguments = []; borders = [] } }
    {
        Gathered {
            taken: Toks::new(alloc),
            from: 0,
            arguments: Lists::new(alloc),
            borders: Table::new(alloc),
        }
    }
}

/// A clone has gathered the same. Its only error is want of memory.
impl Clone for Gathered {
    ghost is_clone = { λ source copy. copy ≡ source };

    fn clone(&self) -> Result<Self, AllocError> {
        Ok(Gathered {
            taken: self.taken.share()?,
            from: self.from,
            arguments: self.arguments.share()?,
            borders: self.borders.share()?,
        })
    }
}

/// What a token makes of an argument.
#[derive(Clone, Copy)]
pub(crate) enum Move {
    /// It goes on so.
    On(Kind),
    /// The token begins the group that the argument is.
    Opens,
    /// The token is the argument.
    Single,
    /// The argument is what was met.
    Closes,
    /// The argument is what was met but for the last tokens, so many, which are of the delimiter.
    Delimits { agreed: usize },
    /// This error comes.
    Broken(TexError),
}

/// What a token makes of a use.
#[derive(Drop)]
pub(crate) enum Advance {
    /// It waits for this.
    On(Awaited),
    /// It is whole, with these arguments.
    Fits(Lists),
    /// This error comes.
    Fails(TexError),
}
