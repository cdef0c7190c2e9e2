//! Noads that hold nothing else (TeX: The Program, sections 680 and 688).
use crate::kinds::Delimiter;
use tx_num::Glue;

/// A small noad, which its list holds (TeX: The Program, sections 686 to 688 and 149).
#[derive(Clone, Copy)]
pub enum PlainNoad {
    /// What follows is set in this style: 0 display, 2 text, 4 script, 6 scriptscript.
    Style(u8),
    /// \nonscript: glue or a kern that follows counts in display and text style alone.
    Nonscript,
    /// \mskip: glue whose normal sizes are in mu, in units of 2^-16.
    Glue(Glue),
    /// \mkern: a kern of so many mu, in units of 2^-16.
    Kern(i32),
    /// \left: a delimiter as tall as the list asks, an opening.
    Left(Delimiter),
    /// \right: the same, a closing.
    Right(Delimiter),
}
