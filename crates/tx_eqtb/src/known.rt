//! The names that mean something, of which a line's are owners too.
ghost use Rattle.std.specs.Prelude.{◌≡◌, option_copied, IfSome};
ghost use Rattle.std.specs.Option.{option_map};
ghost use Rattle.std.specs.FinMap.{get};

use crate::eqtb::Eqtb;
use tx_char::ControlName;
use tx_lex::KnownNames;

impl KnownNames for Eqtb {
    /// The name of these letters, lent; None exactly where it means nothing.
    fn find(&self, letters: &[u8]) -> Option<&ControlName>
        ensures same { IfSome (option_copied result) (λ name. name ≡ letters.now) }
        ensures known { option_copied result ≡ option_map (λ meaning. letters.now) (get self.now.table.names letters.now) }
    {
        self.table.names.find(letters)
    }
}
