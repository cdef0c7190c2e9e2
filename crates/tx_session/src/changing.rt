//! How changes are made in the files of a session.
ghost use Rattle.std.specs.Prelude.{◌≡◌, IfOk, OnOk, OnErr};
ghost use Rattle.tx_files.specs.Changes.{all_changed, AreSmall};
ghost use Rattle.tx_files.specs.TakenBack.{CanTakeBack, taken_back};
ghost use Rattle.tx_session.specs.Refusals.{IsBatchAnswer, past_end, past_end_alone};

use crate::refusal::Refusal;
use tx_files::{Before, Change, FileSet};

/// How long the file of a change is, where the change goes past its end; it takes no memory.
fn outside_of(files: &FileSet, change: &Change) -> Option<u64>
    ensures { result ≡ past_end files.now change.now }
{
    match change {
        Change::Edit(e) => files.outside(e),
        Change::Remove(_) => None,
    }
}

/// The same of a change that is all of a list; None of other lists.
fn outside_alone(files: &FileSet, changes: &[Change]) -> Option<u64>
    ensures { result ≡ past_end_alone files.now changes.now }
{
    match changes {
        [] => None,
        [only] => outside_of(files, only),
        [_, _, ..] => None,
    }
}

/// Makes a list of changes, as `FileSet::change_all` does. Whether one change alone can be made is looked at before memory is
/// asked for; of more changes, which are made in a copy, it is looked at in that. After a refusal nothing has changed.
pub fn change_files(files: &mut FileSet, changes: &[Change]) -> Result<Before, Refusal>
    ensures answer { IsBatchAnswer files.old changes.now result }
    ensures ok { OnOk result (files.new ≡ all_changed files.old changes.now) }
    ensures err { OnErr result (files.new ≡ files.old) }

    // Each file that was changed on the way was held in memory.
    ensures small { OnOk result (AreSmall files.old changes.now) }

    // What `take_back` needs and makes of it.
    ensures can { IfOk result (CanTakeBack files.new) }
    ensures back { IfOk result (λ before. taken_back files.new before ≡ files.old) }
{
    let outside = outside_alone(files, changes);
    if let Some(len) = outside {
        return Err(Refusal::BatchOutside { index: 1, len });
    }
    let before = files.change_all(changes)?;
    Ok(before)
}
