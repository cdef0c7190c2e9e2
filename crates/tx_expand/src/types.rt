//! What an expansion reads and makes, and what a turn answers.
use tx_bytes::Bytes;
use tx_char::ControlName;
use tx_prim::{EntryEnd, Mode, Test};
use tx_seen::{FontName, Place, Seen, TexError, Want};
use tx_toklist::Toks;

/// What the caller takes.
#[derive(Clone, Copy)]
pub struct Wanted {
    /// How it wants its next token.
    pub want: Want,
    /// Whether it takes a text: a definition, or what is absorbed (TeX: The Program, section 305).
    pub text: bool,
    /// Whether what \the gives is put into that text as it stands (TeX: The Program, section 478).
    pub takes_the: bool,
    /// Whether it takes a file's name: an \input there ends it (TeX: The Program, section 378).
    pub names: bool,
    /// Whether it only looks at that token, which is read again: an entry of an alignment may end there (TeX: The Program, section
    /// 1138).
    pub peeks: bool,
}

/// What is printed of one token.
#[derive(Clone, Copy, PartialEq, Eq)]
pub enum Printed {
    /// \string: the token.
    Token,
    /// \meaning: what it means.
    Meaning,
}

/// Where the tokens go that \the gives.
#[derive(Clone, Copy, PartialEq, Eq)]
pub enum Destination {
    /// They are put into the input.
    Input,
    /// They belong to the text that the caller takes, and aren't expanded again (TeX: The Program, section 478).
    Text,
}

/// What an expansion reads off tokens that are expanded.
#[derive(Clone, Copy, PartialEq, Eq)]
pub enum Scanned {
    /// \csname: a name.
    Name,
    /// \number: an integer, to be printed in decimal digits.
    Number,
    /// \romannumeral: an integer, to be printed in Roman letters.
    Roman,
    /// \the: what stands at a place, and where its tokens go.
    Quantity { to: Destination },
    /// The test of a conditional, in this mode.
    Test(Test, Mode),
    /// \input: a file's name.
    File,
    /// \fontname: a font.
    Font,
}

/// What comes of what an expansion has read.
#[derive(Drop)]
pub enum Made {
    /// These tokens stand in its place.
    Puts(Toks),
    /// They belong to the text that the caller takes, and aren't expanded again.
    Gives(Toks),
    /// The list of tokens at this place goes there.
    List(Destination, Place),
    /// So does that of the register of \toks of this number.
    Register(Destination, i64),
    /// So does the identifier of this font.
    Identifier(Destination, FontName),
    /// This name stands in its place, and means \relax from now on if it had no meaning.
    Names(ControlName),
    /// The innermost test has this value.
    Decides(i64),
    /// The file of this name is opened.
    Opens(Bytes),
    /// The name of this font stands in its place.
    Font(FontName),
}

/// What a token makes of what an expansion reads.
#[derive(Drop)]
pub enum Read {
    /// More is to come.
    More,
    /// It is whole, and comes to this.
    Made(Made),
    /// This error comes.
    Wrong(TexError),
}

/// What a turn answers.
#[derive(Drop)]
pub enum Expanded {
    /// A token for the caller, with what it means.
    Got(Seen),
    /// Tokens for the text that the caller takes, none of which is expanded again.
    Text(Toks),
    /// No token yet.
    Went,
    /// No token yet; this name, which had no meaning, means \relax from now on, locally.
    Relaxes(ControlName),
    /// The end of a list that was to be marked.
    Marked,
    /// An entry of an alignment ends by this: what its column has behind it is to be read (TeX: The Program, section 342).
    EndsEntry(EntryEnd),
    /// What the column has behind the entry is read to its end.
    PartEnded,
    /// The line is used up, or there is none: another one is asked for.
    LineUsed,
    /// The line is used up, and \endinput came since the last one was: the file is to be closed.
    FileUsed,
    /// The file of this name is asked for.
    Asks(Bytes),
    /// This error comes.
    Wrong(TexError),
}
