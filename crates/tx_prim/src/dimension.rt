//! The dimension parameters (The TeXbook, chapter 24), in the order of the book. INITEX begins with 0pt for each.
ghost use Rattle.std.specs.Prelude.{◌≡◌, ◌<◌};
ghost use Rattle.tx_prim.specs.Dimensions.{dimension_name, dimension_number};

/// A dimension parameter.
#[derive(Clone, Copy, PartialEq, Eq)]
pub enum DimensionParameter {
    Hfuzz,
    Vfuzz,
    Overfullrule,
    Emergencystretch,
    Hsize,
    Vsize,
    Maxdepth,
    Splitmaxdepth,
    Boxmaxdepth,
    Lineskiplimit,
    Delimitershortfall,
    Nulldelimiterspace,
    Scriptspace,
    Mathsurround,
    Predisplaysize,
    Displaywidth,
    Displayindent,
    Parindent,
    Hangindent,
    Hoffset,
    Voffset,
}

impl DimensionParameter {
    /// How many there are.
    pub const COUNT: usize = 21;

    /// The parameter's name, without its escape character.
    #[tactic(auto, unfolding(crate::specs::Dimensions::dimension_name))]
    pub fn name(self) -> &'static [u8]
        ensures { result.now ≡ dimension_name self }
    {
        match self {
            DimensionParameter::Hfuzz => b"hfuzz",
            DimensionParameter::Vfuzz => b"vfuzz",
            DimensionParameter::Overfullrule => b"overfullrule",
            DimensionParameter::Emergencystretch => b"emergencystretch",
            DimensionParameter::Hsize => b"hsize",
            DimensionParameter::Vsize => b"vsize",
            DimensionParameter::Maxdepth => b"maxdepth",
            DimensionParameter::Splitmaxdepth => b"splitmaxdepth",
            DimensionParameter::Boxmaxdepth => b"boxmaxdepth",
            DimensionParameter::Lineskiplimit => b"lineskiplimit",
            DimensionParameter::Delimitershortfall => b"delimitershortfall",
            DimensionParameter::Nulldelimiterspace => b"nulldelimiterspace",
            DimensionParameter::Scriptspace => b"scriptspace",
            DimensionParameter::Mathsurround => b"mathsurround",
            DimensionParameter::Predisplaysize => b"predisplaysize",
            DimensionParameter::Displaywidth => b"displaywidth",
            DimensionParameter::Displayindent => b"displayindent",
            DimensionParameter::Parindent => b"parindent",
            DimensionParameter::Hangindent => b"hangindent",
            DimensionParameter::Hoffset => b"hoffset",
            DimensionParameter::Voffset => b"voffset",
        }
    }

    /// Which one it is in the book's order, from 0 on.
    #[tactic(auto, unfolding(crate::specs::Dimensions::dimension_number))]
    pub fn number(self) -> usize
        ensures value { result ≡ dimension_number self }
        ensures within { result < 21 }
    {
        self as usize
    }
}
