//! The lengths of a font metric file's tables, and where each table begins.
ghost use Rattle.std.specs.Prelude.{◌≡◌, ◌-◌, ◌+◌, ◌*◌, ◌≤◌, ◌<◌, ◌^◌, length};
ghost use Rattle.tx_tfm.specs.Format.{half, lengths_of, characters_at, character_count, widths_at, heights_at, depths_at, italics_at, commands_at, kerns_at, recipes_at, parameters_at};

use byteorder::{BigEndian, ByteOrder};

/// The twelve numbers that a file begins with: lengths in words, and the codes of the first and the last character.
#[derive(Clone, Copy)]
pub struct Lengths {
    pub file: u16,
    pub header: u16,
    pub first: u16,
    pub last: u16,
    pub widths: u16,
    pub heights: u16,
    pub depths: u16,
    pub italics: u16,
    pub commands: u16,
    pub kerns: u16,
    pub recipes: u16,
    pub parameters: u16,
}

/// The lengths in the first 24 bytes.
pub fn read_lengths(bytes: &[u8]) -> Lengths
    requires { 24 ≤ length bytes.now }
    ensures { result ≡ lengths_of bytes.now }
{
    Lengths {
        file: half_at(bytes, 0),
        header: half_at(bytes, 1),
        first: half_at(bytes, 2),
        last: half_at(bytes, 3),
        widths: half_at(bytes, 4),
        heights: half_at(bytes, 5),
        depths: half_at(bytes, 6),
        italics: half_at(bytes, 7),
        commands: half_at(bytes, 8),
        kerns: half_at(bytes, 9),
        recipes: half_at(bytes, 10),
        parameters: half_at(bytes, 11),
    }
}

/// The number of two bytes at a place, counted in such numbers.
fn half_at(bytes: &[u8], place: usize) -> u16
    requires { 2 * place + 2 ≤ length bytes.now }
    ensures { result ≡ half bytes.now place }
{
    BigEndian::read_u16(&bytes[2 * place..])
}

impl Lengths {
    /// Where what is said of each character stands.
    pub fn characters_at(&self) -> usize
        ensures value { result ≡ characters_at self.now }
        ensures bound { result < 2 ^ 17 }
    {
        6 + usize::from(self.header)
    }

    /// How many characters are listed.
    pub fn character_count(&self) -> usize
        ensures value { result ≡ character_count self.now }
        ensures bound { result < 2 ^ 17 }
        ensures codes { self.now.first + result < 2 ^ 17 }
    {
        (usize::from(self.last) + 1).saturating_sub(usize::from(self.first))
    }

    /// Where the widths begin.
    pub fn widths_at(&self) -> usize
        ensures value { result ≡ widths_at self.now }
        ensures bound { result < 2 ^ 18 }
    {
        self.characters_at() + self.character_count()
    }

    /// Where the heights begin.
    pub fn heights_at(&self) -> usize
        ensures value { result ≡ heights_at self.now }
        ensures bound { result < 2 ^ 19 }
    {
        self.widths_at() + usize::from(self.widths)
    }

    /// Where the depths begin.
    pub fn depths_at(&self) -> usize
        ensures value { result ≡ depths_at self.now }
        ensures bound { result < 2 ^ 20 }
    {
        self.heights_at() + usize::from(self.heights)
    }

    /// Where the italic corrections begin.
    pub fn italics_at(&self) -> usize
        ensures value { result ≡ italics_at self.now }
        ensures bound { result < 2 ^ 21 }
    {
        self.depths_at() + usize::from(self.depths)
    }

    /// Where the lig/kern commands begin.
    pub fn commands_at(&self) -> usize
        ensures value { result ≡ commands_at self.now }
        ensures bound { result < 2 ^ 22 }
    {
        self.italics_at() + usize::from(self.italics)
    }

    /// Where the kerns begin.
    pub fn kerns_at(&self) -> usize
        ensures value { result ≡ kerns_at self.now }
        ensures bound { result < 2 ^ 23 }
    {
        self.commands_at() + usize::from(self.commands)
    }

    /// Where the extensible recipes begin.
    pub fn recipes_at(&self) -> usize
        ensures value { result ≡ recipes_at self.now }
        ensures bound { result < 2 ^ 24 }
    {
        self.kerns_at() + usize::from(self.kerns)
    }

    /// Where the parameters begin.
    pub fn parameters_at(&self) -> usize
        ensures value { result ≡ parameters_at self.now }
        ensures bound { result < 2 ^ 25 }
    {
        self.recipes_at() + usize::from(self.recipes)
    }

    /// How many kerns there are.
    pub fn kern_count(&self) -> usize
        ensures value { result ≡ self.now.kerns }
        ensures bound { result < 2 ^ 16 }
    {
        usize::from(self.kerns)
    }

    /// How many parameters there are but the slant, which does not depend on the size.
    pub fn scaled_count(&self) -> usize
        ensures value { result ≡ self.now.parameters - 1 }
        ensures bound { result < 2 ^ 16 }
    {
        usize::from(self.parameters).saturating_sub(1)
    }
}
