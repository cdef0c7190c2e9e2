//! \let, token by token (TeX: The Program, sections 1215 and 1221).
ghost use Rattle.std.specs.Prelude.{◌≡◌, ◌∷◌, IfOk};
ghost use Rattle.tx_seen.specs.declared.item.Item.TheVariants.{Took};
ghost use Rattle.tx_seen.specs.Readings.{next};
ghost use Rattle.tx_scan.specs.Grammars.{name};
ghost use Rattle.tx_scan.specs.Supplied.{NeedsNoMore};
ghost use Rattle.tx_scan.specs.IntegerRests.{waiting};
ghost use Rattle.tx_assign.specs.Assignments as spec;
ghost use Rattle.tx_assign.specs.Rests.{IsAssigning, WaitsIfNeeded, more_needed};

use crate::scan::{AssignScan, AssignStage};
use crate::types::Change;
use std::alloc::AllocError;
use tx_eqtb::Entry;
use tx_scan::NameScan;
use tx_seen::{Fed, Seen, Want};

// The only error of each of these is that no more owners of a name or a meaning can be counted.
impl AssignScan {
    /// The scan goes on with this stage, for which the next token is taken as it stands.
    fn raw(&mut self, stage: AssignStage) -> Fed<()>
        ensures scan { self.new ≡ record self.old { stage = stage } }
        ensures answer { result ≡ Fed.More Want.Raw }
    {
        self.stage = stage;
        Fed::More(Want::Raw)
    }

    /// The name that is defined.
    #[inline(never)]
    pub(crate) fn feed_name(&mut self, token: &Seen) -> Result<Fed<()>, AllocError>
        requires { self.old.stage ≡ AssignStage.LetName }
        ensures answer { IfOk result (IsAssigning 0 (λ more. next (name (Took token.now ∷ more)) spec.let_behind_name) token.now self.new) }
        ensures needed { IfOk result (NeedsNoMore (waiting self.old.integer) (more_needed self.new)) }
        ensures waits { IfOk result (WaitsIfNeeded self.new) }
    {
        let mut name = NameScan::new();
        match name.feed(token)? {
            Fed::More(want) => Ok(Fed::More(want)),
            Fed::Done(place, _) => {
                self.set_place(place);
                Ok(self.raw(AssignStage::LetBehindName))
            }
            Fed::Need(kind) => Ok(Fed::Need(kind)),
            Fed::Wrong(error) => Ok(Fed::Wrong(error)),
        }
    }

    /// Spaces, an optional `=`, or the token that the name is to be like.
    #[inline(never)]
    pub(crate) fn feed_behind_name(&mut self, token: &Seen) -> Result<Fed<()>, AllocError>
        ensures answer { IfOk result (IsAssigning 0 (λ more. spec.let_behind_name self.old.place (Took token.now ∷ more)) token.now self.new) }
        ensures needed { IfOk result (NeedsNoMore (waiting self.old.integer) (more_needed self.new)) }
        ensures waits { IfOk result (WaitsIfNeeded self.new) }
    {
        if token.is_space() {
            return Ok(self.raw(AssignStage::LetBehindName));
        }
        if token.is_other(b'=') {
            return Ok(self.raw(AssignStage::LetBehindEquals));
        }
        let meaning = token.meaning.clone()?;
        Ok(self.end(Change::Set(Entry::Means(meaning)), 0))
    }

    /// An optional space behind the `=`, or the token that the name is to be like.
    #[inline(never)]
    pub(crate) fn feed_behind_equals(&mut self, token: &Seen) -> Result<Fed<()>, AllocError>
        ensures answer { IfOk result (IsAssigning 0 (λ more. spec.let_behind_equals self.old.place (Took token.now ∷ more)) token.now self.new) }
        ensures needed { IfOk result (NeedsNoMore (waiting self.old.integer) (more_needed self.new)) }
        ensures waits { IfOk result (WaitsIfNeeded self.new) }
    {
        if token.is_space() {
            return Ok(self.raw(AssignStage::LetToken));
        }
        let meaning = token.meaning.clone()?;
        Ok(self.end(Change::Set(Entry::Means(meaning)), 0))
    }

    /// The token that the name is to be like.
    #[inline(never)]
    pub(crate) fn feed_token(&mut self, token: &Seen) -> Result<Fed<()>, AllocError>
        ensures answer { IfOk result (IsAssigning 0 (λ more. spec.let_token self.old.place (Took token.now ∷ more)) token.now self.new) }
        ensures needed { IfOk result (NeedsNoMore (waiting self.old.integer) (more_needed self.new)) }
        ensures waits { IfOk result (WaitsIfNeeded self.new) }
    {
        let meaning = token.meaning.clone()?;
        Ok(self.end(Change::Set(Entry::Means(meaning)), 0))
    }
}
