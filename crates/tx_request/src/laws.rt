//! The theorem that requests are read in one way.
ghost use Rattle.std.specs.Prelude.{ℕ, List};
ghost use Rattle.tx_request.specs.Requests.{IsOnlyReading};

/// What stands at the front of bytes that come in, a request or what is refused, is determined by them, and so is where the next begins.
/// This call does nothing: its contract is the theorem.
pub fn requests_are_read_in_one_way()
    ensures { (bytes : List ℕ) → IsOnlyReading bytes }
{}
