//! The commands of a page, as far as their bytes are there (the DVI standard; TeX: The Program, sections 585 to 588).
ghost use Rattle.std.specs.Prelude.{◌≡◌, ◌≤◌, get_or, length};
ghost use Rattle.tx_dvi.specs.Meaning as spec;

use byteorder::{BigEndian, ByteOrder};

/// The number of the command that these bytes begin: the first of them, 0 where there is none.
pub fn opcode_of(bytes: &[u8]) -> u8
    ensures { result ≡ get_or bytes.now 0 0 }
{
    match bytes {
        [first, ..] => *first,
        [] => 0,
    }
}

/// Whether a command is one of fnt_num_0 to fnt_num_63.
pub fn is_font_number(opcode: u8) -> bool
    ensures { result ≡ spec.is_font_number opcode }
{
    171 <= opcode && opcode <= 234
}

/// Whether a command is a movement, right1 to z4.
pub fn is_movement(opcode: u8) -> bool
    ensures { result ≡ spec.is_movement opcode }
{
    143 <= opcode && opcode <= 170
}

/// How many bytes follow the first one of a movement.
pub fn movement_operands(opcode: u8) -> u8
    requires least { 143 ≤ opcode }
    requires most { opcode ≤ 170 }
    ensures is { result ≡ spec.movement_operands opcode }
    ensures bound { result ≤ 4 }
{
    if opcode <= 146 {
        opcode - 142
    } else if opcode <= 151 {
        opcode - 147
    } else if opcode <= 156 {
        opcode - 152
    } else if opcode <= 160 {
        opcode - 156
    } else if opcode <= 165 {
        opcode - 161
    } else {
        opcode - 166
    }
}

/// The number that the first bytes are, so many of them, in two's complement.
pub fn signed_of(bytes: &[u8], size: usize) -> i64
    requires least { 1 ≤ size }
    requires most { size ≤ 8 }
    requires room { size ≤ length bytes.now }
    ensures { result ≡ spec.signed size bytes.now }
{
    BigEndian::read_int(bytes, size)
}

/// How many bytes follow the first one of a special whose length has so many bytes.
fn special_operands(size: usize, bytes: &[u8]) -> u128
    requires least { 1 ≤ size }
    requires most { size ≤ 8 }
    ensures { result ≡ spec.special_operands size bytes.now }
{
    if size < bytes.len() {
        size as u128 + u128::from(BigEndian::read_uint(&bytes[1..], size))
    } else {
        size as u128
    }
}

/// How many bytes follow the first one of a definition of a font.
fn definition_operands(bytes: &[u8]) -> u128
    ensures { result ≡ spec.definition_operands bytes.now }
{
    if 15 < bytes.len() {
        15 + (u128::from(bytes[14]) + u128::from(bytes[15]))
    } else {
        15
    }
}

/// How many bytes follow the first one of a command of which these bytes are there, as far as they tell; None where they
/// begin no command of a page.
pub fn operands_of(bytes: &[u8]) -> Option<u128>
    ensures { result ≡ spec.operands (get_or bytes.now 0 0) bytes.now }
{
    let opcode = opcode_of(bytes);
    if opcode < 128 || is_font_number(opcode) {
        Some(0)
    } else if opcode == 128 || opcode == 235 {
        Some(1)
    } else if opcode == 243 {
        Some(definition_operands(bytes))
    } else if opcode == 132 || opcode == 137 {
        Some(8)
    } else if opcode == 138 || opcode == 141 || opcode == 142 {
        Some(0)
    } else if is_movement(opcode) {
        Some(u128::from(movement_operands(opcode)))
    } else if opcode < 239 {
        None
    } else if opcode <= 242 {
        Some(special_operands(usize::from(opcode - 238), bytes))
    } else {
        None
    }
}
