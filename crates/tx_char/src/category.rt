//! The sixteen categories of characters.
ghost use Rattle.std.specs.Prelude.{◌≡◌, ◌<◌, ◌↔◌, IsSome, IfSome};
ghost use Rattle.tx_char.specs.Category.{number_of};

/// The category of a character: what TeX takes it for when it reads (The TeXbook, chapter 7). In the order of their
/// numbers, which \catcode assigns.
#[derive(Clone, Copy, PartialEq, Eq)]
pub enum Cat {
    Escape,
    BeginGroup,
    EndGroup,
    MathShift,
    AlignmentTab,
    EndOfLine,
    Parameter,
    Superscript,
    Subscript,
    Ignored,
    Space,
    Letter,
    Other,
    Active,
    Comment,
    Invalid,
}

impl Cat {
    /// The category's number, 0 to 15.
    pub fn number(self) -> u8
        ensures { result ≡ number_of self }
    {
        self as u8
    }

    /// The category of this number, and None exactly where none has it.
    pub fn from_number(number: u8) -> Option<Cat>
        ensures known { IsSome result ↔ (number < 16) }
        ensures value { IfSome result (λ category. number_of category ≡ number) }
    {
        match number {
            0 => Some(Cat::Escape),
            1 => Some(Cat::BeginGroup),
            2 => Some(Cat::EndGroup),
            3 => Some(Cat::MathShift),
            4 => Some(Cat::AlignmentTab),
            5 => Some(Cat::EndOfLine),
            6 => Some(Cat::Parameter),
            7 => Some(Cat::Superscript),
            8 => Some(Cat::Subscript),
            9 => Some(Cat::Ignored),
            10 => Some(Cat::Space),
            11 => Some(Cat::Letter),
            12 => Some(Cat::Other),
            13 => Some(Cat::Active),
            14 => Some(Cat::Comment),
            15 => Some(Cat::Invalid),
            _ => None,
        }
    }
}
