//! The space factor.
ghost use Rattle.std.specs.Prelude.{◌≡◌, ◌≤◌};
ghost use Rattle.tx_word.specs.Factors as spec;

/// The space factor behind a character whose \sfcode is `code` (TeX: The Program, section 1034): that code, but 0 leaves the
/// factor as it is, and it goes from below 1000 to above 1000 by way of 1000.
pub fn factor_behind(factor: u16, code: u16) -> u16
    requires some { 1 ≤ factor }
    requires factor_in { factor ≤ 32767 }
    requires code_in { code ≤ 32767 }
    ensures value { result ≡ spec.factor_behind factor code }
    ensures some { 1 ≤ result }
    ensures most { result ≤ 32767 }
{
    if code == 0 {
        factor
    } else if factor < 1000 && code > 1000 {
        1000
    } else {
        code
    }
}
