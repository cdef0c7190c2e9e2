//! The words `to` and `spread`, letter by letter.

/// What is read of `to` or `spread`, by its last letter.
#[derive(Clone, Copy)]
pub enum Word {
    T,
    S,
    Sp,
    Spr,
    Spre,
    Sprea,
}

/// What follows where the word breaks off and its letters are read anew.
#[derive(Clone, Copy)]
pub enum Lost {
    /// They are skipped, and `spread` may come yet.
    Spread,
    /// They are skipped, and the begin-group token is to come.
    Brace,
    /// One of them is the begin-group token; so many come behind it.
    Begun(usize),
    /// One of them is no begin-group token, and is where that is to be.
    Bare,
}
