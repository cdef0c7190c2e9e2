//! Whether what stands behind a Bin makes an Ord of it (TeX: The Program, sections 728 and 729).
ghost use Rattle.std.specs.Prelude.{◌≡◌};
ghost use Rattle.tx_math.specs.Classes as spec;
ghost use Rattle.tx_math.specs.Converting.{entries_in, entry_of};

use crate::entry::Entry;
use crate::kinds::{is_bin, lacks_operand};
use crate::laying::is_noad;
use tx_mlist::AtomKind;

/// Whether no operand stands first among these entries.
fn ends_operands(entries: &[Entry]) -> bool
    ensures { result ≡ spec.ends_operands (entries_in entries.now) }
{
    for entry in entries {
        if is_noad(&entry.noad) {
            return lacks_operand(entry.kind);
        }
    }
    true
}

/// The kind of an entry before these.
pub fn kind_before(entry: &Entry, rest: &[Entry]) -> AtomKind
    ensures { result ≡ spec.kind_before (entry_of entry.now) (entries_in rest.now) }
{
    if is_bin(entry.kind) && ends_operands(rest) {
        AtomKind::Ord
    } else {
        entry.kind
    }
}
