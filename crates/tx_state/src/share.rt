//! Copies of TeX's state that go on by themselves.
ghost use Rattle.std.specs.Prelude.{◌≡◌, IfOk};
ghost use Rattle.tx_state.specs.Meanings.{meaning_of};

use crate::state::State;
use std::alloc::{AllocError, Global};
use tx_command::CommandBuffer;
use tx_list::both;
use tx_parts::{LargeParts, SmallParts};

/// A state that means the same, with the same bytes of the transcript that are still to be taken. Its only error is want of
/// memory.
pub fn share_state(alloc: Global, s: &State) -> Result<State, AllocError>
    ensures meaning { IfOk result (λ t. meaning_of t ≡ meaning_of s.now) }
    ensures said { IfOk result (λ t. t.said ≡ s.now.said) }
{
    let small = SmallParts::share(
        &s.due,
        &s.text,
        &s.after_groups,
        &s.after_assignment,
        &s.defined,
        &s.said,
    );
    let large = LargeParts::share(&s.words, &s.table, &s.hyphenation, &s.lists);
    let begun = both(s.scan.clone(), CommandBuffer::new(alloc));
    let read = both(
        both(s.expander.share(), s.input.share(alloc)),
        s.alignments.share(),
    );
    let (held, (begun, read)) = both(both(small, large), both(begun, read))?;
    let (small, large) = held;
    let ((due, text), ((after_groups, after_assignment), (defined, said))) = small.into_parts();
    let ((words, table), (hyphenation, lists)) = large.into_parts();
    let (scan, made) = begun;
    let ((expander, input), alignments) = read;
    Ok(State {
        phase: s.phase,
        due,
        files: s.files,
        input,
        expander,
        text,
        scan,
        made,
        lists,
        alignments,
        words,
        hyphenation,
        table,
        after_groups,
        after_assignment,
        magnification: s.magnification,
        defined,
        said,
    })
}
