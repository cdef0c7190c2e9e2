//! The values that a table has.
ghost use Rattle.std.specs.Prelude.{◌≡◌};
ghost use Rattle.tx_seen.specs.declared.fed.Value.{Value};
ghost use Rattle.tx_seen.specs.declared.place.Place.{Place};

use crate::fed::Value;
use crate::place::Place;

/// What stands at the places of a table.
pub trait Quantities {
    /// The value at a place.
    ghost value_at: { Self → Place → Value };

    /// What stands at a place.
    fn quantity(&self, place: &Place) -> Value
        ensures { result ≡ value_at self.now place.now };
}
