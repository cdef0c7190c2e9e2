//! The parameters that are lists of tokens (The TeXbook, chapter 24), in the order of the book. INITEX begins with an empty list
//! for each.
ghost use Rattle.std.specs.Prelude.{◌≡◌, ◌<◌};
ghost use Rattle.tx_prim.specs.Tokens.{token_name, token_number};

/// A parameter that is a list of tokens.
#[derive(Clone, Copy, PartialEq, Eq)]
pub enum TokenParameter {
    Output,
    Everypar,
    Everymath,
    Everydisplay,
    Everyhbox,
    Everyvbox,
    Everyjob,
    Everycr,
    Errhelp,
}

impl TokenParameter {
    /// How many there are.
    pub const COUNT: usize = 9;

    /// The parameter's name, without its escape character.
    #[tactic(auto, unfolding(crate::specs::Tokens::token_name))]
    pub fn name(self) -> &'static [u8]
        ensures { result.now ≡ token_name self }
    {
        match self {
            TokenParameter::Output => b"output",
            TokenParameter::Everypar => b"everypar",
            TokenParameter::Everymath => b"everymath",
            TokenParameter::Everydisplay => b"everydisplay",
            TokenParameter::Everyhbox => b"everyhbox",
            TokenParameter::Everyvbox => b"everyvbox",
            TokenParameter::Everyjob => b"everyjob",
            TokenParameter::Everycr => b"everycr",
            TokenParameter::Errhelp => b"errhelp",
        }
    }

    /// Which one it is in the book's order, from 0 on.
    #[tactic(auto, unfolding(crate::specs::Tokens::token_number))]
    pub fn number(self) -> usize
        ensures value { result ≡ token_number self }
        ensures within { result < 9 }
    {
        self as usize
    }
}
