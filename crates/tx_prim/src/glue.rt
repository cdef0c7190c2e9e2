//! The glue parameters (The TeXbook, chapter 24), in the order of the book: those of text, then the three that are told in mu.
//! INITEX begins with zero glue for each.
ghost use Rattle.std.specs.Prelude.{◌≡◌, ◌<◌};
ghost use Rattle.tx_prim.specs.Glues.{glue_name, glue_number, is_in_mu};

/// A glue parameter.
#[derive(Clone, Copy, PartialEq, Eq)]
pub enum GlueParameter {
    Baselineskip,
    Lineskip,
    Parskip,
    Abovedisplayskip,
    Abovedisplayshortskip,
    Belowdisplayskip,
    Belowdisplayshortskip,
    Leftskip,
    Rightskip,
    Topskip,
    Splittopskip,
    Tabskip,
    Spaceskip,
    Xspaceskip,
    Parfillskip,
    Thinmuskip,
    Medmuskip,
    Thickmuskip,
}

impl GlueParameter {
    /// How many there are.
    pub const COUNT: usize = 18;

    /// The parameter's name, without its escape character.
    #[tactic(auto, unfolding(crate::specs::Glues::glue_name))]
    pub fn name(self) -> &'static [u8]
        ensures { result.now ≡ glue_name self }
    {
        match self {
            GlueParameter::Baselineskip => b"baselineskip",
            GlueParameter::Lineskip => b"lineskip",
            GlueParameter::Parskip => b"parskip",
            GlueParameter::Abovedisplayskip => b"abovedisplayskip",
            GlueParameter::Abovedisplayshortskip => b"abovedisplayshortskip",
            GlueParameter::Belowdisplayskip => b"belowdisplayskip",
            GlueParameter::Belowdisplayshortskip => b"belowdisplayshortskip",
            GlueParameter::Leftskip => b"leftskip",
            GlueParameter::Rightskip => b"rightskip",
            GlueParameter::Topskip => b"topskip",
            GlueParameter::Splittopskip => b"splittopskip",
            GlueParameter::Tabskip => b"tabskip",
            GlueParameter::Spaceskip => b"spaceskip",
            GlueParameter::Xspaceskip => b"xspaceskip",
            GlueParameter::Parfillskip => b"parfillskip",
            GlueParameter::Thinmuskip => b"thinmuskip",
            GlueParameter::Medmuskip => b"medmuskip",
            GlueParameter::Thickmuskip => b"thickmuskip",
        }
    }

    /// Which one it is in the book's order, from 0 on.
    #[tactic(auto, unfolding(crate::specs::Glues::glue_number))]
    pub fn number(self) -> usize
        ensures value { result ≡ glue_number self }
        ensures within { result < 18 }
    {
        self as usize
    }

    /// Whether it is told in mu (The TeXbook, chapter 18).
    pub fn is_in_mu(self) -> bool
        ensures { result ≡ is_in_mu self }
    {
        match self {
            GlueParameter::Thinmuskip | GlueParameter::Medmuskip | GlueParameter::Thickmuskip => {
                true
            }
            GlueParameter::Baselineskip
            | GlueParameter::Lineskip
            | GlueParameter::Parskip
            | GlueParameter::Abovedisplayskip
            | GlueParameter::Abovedisplayshortskip
            | GlueParameter::Belowdisplayskip
            | GlueParameter::Belowdisplayshortskip
            | GlueParameter::Leftskip
            | GlueParameter::Rightskip
            | GlueParameter::Topskip
            | GlueParameter::Splittopskip
            | GlueParameter::Tabskip
            | GlueParameter::Spaceskip
            | GlueParameter::Xspaceskip
            | GlueParameter::Parfillskip => false,
        }
    }
}
