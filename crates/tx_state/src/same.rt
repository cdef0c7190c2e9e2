//! Whether two states mean the same. What is cheap to compare is compared first.
ghost use Rattle.std.specs.Prelude.{◌≡◌, ◌↔◌, IsTrue};
ghost use Rattle.tx_expand.specs.Expanding.{reader_of};
ghost use Rattle.tx_state.specs.Meanings.{meaning_of, state_of};

use crate::parts::Phase;
use crate::state::State;
use tx_expand::Expander;
use tx_parts::{same_begun, same_kept, same_lists, same_words};
use tx_pending::Pending;

/// Whether both read the same, with the same expansions and conditionals begun.
fn same_reader(
    expander: &Expander,
    other_expander: &Expander,
    input: &Pending,
    other_input: &Pending,
) -> bool
    ensures { IsTrue result ↔ (reader_of expander.now input.now ≡ reader_of other_expander.now other_input.now) }
{
    expander.same(other_expander) && input.same(other_input)
}

/// Whether two states mean the same, where both are ready or wait for the same.
fn same_parts(one: &State, other: &State) -> bool
    ensures { IsTrue result ↔ (state_of one.now ≡ state_of other.now) }
{
    one.files == other.files
        && one.magnification == other.magnification
        && one.scan.same(&other.scan)
        && same_begun(&one.due, &other.due, &one.text, &other.text)
        && same_reader(&one.expander, &other.expander, &one.input, &other.input)
        && same_kept(
            &one.after_groups,
            &other.after_groups,
            &one.after_assignment,
            &other.after_assignment,
        )
        && one.alignments.same(&other.alignments)
        && same_lists(&one.lists, &other.lists, &one.table, &other.table)
        && same_words(
            &one.defined,
            &other.defined,
            &one.words,
            &other.words,
            &one.hyphenation,
            &other.hyphenation,
        )
}

/// Whether two states mean the same; of one that is done for nothing else matters.
pub fn same_state(one: &State, other: &State) -> bool
    ensures { IsTrue result ↔ (meaning_of one.now ≡ meaning_of other.now) }
{
    match (one.phase, other.phase) {
        (Phase::Running, Phase::Running) => same_parts(one, other),
        (Phase::Waiting(kind), Phase::Waiting(other_kind)) => {
            kind == other_kind && same_parts(one, other)
        }
        (Phase::Halted, Phase::Halted) => true,
        _ => false,
    }
}
