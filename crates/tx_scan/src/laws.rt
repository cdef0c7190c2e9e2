//! The theorem that the answers of a scan are final, and that More is a promise.
ghost use Rattle.std.specs.Prelude.{◌≡◌, ◌++◌, List};
ghost use Rattle.tx_seen.specs.declared.fed.Want.{Want};
ghost use Rattle.tx_seen.specs.declared.item.Item.{Item};
ghost use Rattle.tx_seen.specs.Readings.{More, ReadsOn};
ghost use Rattle.tx_scan.specs.Integers.{integer};
ghost use Rattle.tx_scan.specs.Laws.{HasEnded};

/// A list that begins with a whole integer, or with an error, does so with anything behind it; and where one more token
/// is needed, some tokens and values make the list a whole integer, unless the number of a register in it is already too
/// large. This call does nothing: its contract is the theorem.
pub fn integers_are_read_from_the_left()
    ensures stands { (items more : List Item) → ReadsOn more (integer items) (integer (items ++ more)) }
    ensures part { (items : List Item) (want : Want) → integer items ≡ More want → (more : List Item) × HasEnded (integer (items ++ more)) }
{}
