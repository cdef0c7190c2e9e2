//! Lists of tokens that stand in the table (TeX: The Program, sections 415 and 1227).
ghost use Rattle.std.specs.Prelude.{◌≡◌};
ghost use Rattle.tx_scan.specs.Lists as spec;

use crate::scans::ListBegun;
use tx_prim::{Numbered, Primitive};
use tx_seen::{Meaning, Place};

/// Which list of tokens a token stands for that means this.
pub fn list_begun(meaning: &Meaning) -> ListBegun
    ensures { result ≡ spec.list_begun meaning.now }
{
    match meaning {
        Meaning::ToksRegister(number) => ListBegun::At(Place::Toks(*number)),
        Meaning::Command(Primitive::Tokens(parameter)) => ListBegun::At(Place::Tokens(*parameter)),
        Meaning::Command(Primitive::Numbered(Numbered::Toks)) => ListBegun::Register,
        _ => ListBegun::Nothing,
    }
}
