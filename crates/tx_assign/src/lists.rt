//! Lists of tokens in assignments, token by token (TeX: The Program, sections 1226 and 1227).
ghost use Rattle.std.specs.Prelude.{◌∷◌};
ghost use Rattle.tx_seen.specs.declared.item.Item.TheVariants.{Took};
ghost use Rattle.tx_scan.specs.Supplied.{NeedsNoMore};
ghost use Rattle.tx_scan.specs.IntegerRests.{waiting};
ghost use Rattle.tx_assign.specs.Assignments.{list_value, listed};
ghost use Rattle.tx_assign.specs.Rests.{IsAssigning, WaitsIfNeeded, more_needed};
ghost use Rattle.tx_scan.specs.Lists as lists;

use crate::scan::{AssignScan, AssignStage};
use crate::types::{Change, Purpose};
use tx_scan::{ListBegun, list_begun};
use tx_seen::{Fed, Seen, TexError};

impl AssignScan {
    /// What is skipped before a list of tokens, or what that begins with.
    #[inline(never)]
    pub(crate) fn feed_list(&mut self, token: &Seen) -> Fed<()>
        ensures answer { IsAssigning 0 (λ more. list_value self.old.place (Took token.now ∷ more)) token.now self.new result }
        ensures needed { NeedsNoMore (waiting self.old.integer) (more_needed self.new) result }
        ensures waits { WaitsIfNeeded self.new result }
    {
        if token.is_undefined() {
            return Fed::Wrong(TexError::Undefined);
        }
        if token.is_space() || token.is_relax() {
            return self.on(AssignStage::List);
        }
        self.begin_list(token)
    }

    /// What a list of tokens begins with.
    fn begin_list(&mut self, token: &Seen) -> Fed<()>
        ensures answer { IsAssigning 0 (λ more. listed self.old.place (lists.list_begun token.now.meaning) token.now more) token.now self.new result }
        ensures needed { NeedsNoMore (waiting self.old.integer) (more_needed self.new) result }
        ensures waits { WaitsIfNeeded self.new result }
    {
        match list_begun(&token.meaning) {
            ListBegun::At(place) => self.end(Change::Copy(place), 0),
            ListBegun::Register => {
                self.integer.restart();
                self.on(AssignStage::Integer(Purpose::Copy))
            }
            ListBegun::Nothing => {
                if token.begins_group() {
                    self.end(Change::Text, 0)
                } else {
                    Fed::Wrong(TexError::MissingBeginGroup)
                }
            }
        }
    }
}
