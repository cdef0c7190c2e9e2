//! What a paragraph takes from the table where its words are hyphenated.
ghost use Rattle.std.specs.Prelude.{◌≡◌, length, IfOk};
ghost use Rattle.tx_paragraph.specs.Hyphens as spec;

use std::alloc::{AllocError, Global};
use tx_bytes::Bytes;
use tx_eqtb::Eqtb;
use tx_hyphenate::HyphenParams;
use tx_prim::{CharacterCode, IntegerParameter};
use tx_scan::byte;
use tx_seen::Place;

/// How many characters there are.
const ALL: usize = 256;

/// The \lccode of a character.
fn lower_code(table: &Eqtb, code: u8) -> u8
    ensures { result ≡ spec.lower_code table.now.table code }
{
    byte(i64::from(table.number(&Place::Code(CharacterCode::LowerCase, code)))).unwrap_or(0)
}

/// The \lccodes of all characters. Its only error is want of memory.
#[tactic(auto, using(crate::proofs::Filled::filled_steps))]
pub fn lower_codes(alloc: Global, table: &Eqtb) -> Result<Bytes, AllocError>
    ensures value { IfOk result (λ codes. codes ≡ spec.lower_codes table.now.table) }
    ensures count { IfOk result (λ codes. length codes ≡ ALL) }
{
    let mut codes = Bytes::new(alloc);
    for code in 0..ALL {
        codes.push(lower_code(table, code as u8))?;
    }
    Ok(codes)
}

/// \lefthyphenmin, \righthyphenmin and \uchyph.
pub(crate) fn hyphen_params(table: &Eqtb) -> HyphenParams
    ensures { result ≡ spec.hyphen_params table.now.table }
{
    HyphenParams {
        left: i64::from(table.integer(IntegerParameter::Lefthyphenmin)),
        right: i64::from(table.integer(IntegerParameter::Righthyphenmin)),
        uc_hyph: i64::from(table.integer(IntegerParameter::Uchyph)),
    }
}
