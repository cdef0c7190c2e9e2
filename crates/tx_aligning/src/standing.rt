//! What the commands of alignments share: errors, \everycr, and the innermost alignment (TeX: The Program, sections 770 to 774).
ghost use Rattle.std.specs.Prelude.{◌≡◌, ◌≢◌, ◌∷◌, IfOk, OnOk};
ghost use Rattle.tx_align.specs.declared.error.AlignError.TheVariants.{OutOfMemory};
ghost use Rattle.tx_state.specs.Meanings.{IsStepped, state_of};
ghost use Rattle.tx_state.specs.Outcomes.{fails};
ghost use Rattle.tx_aligning.specs.Preambles as spec;

use std::alloc::AllocError;
use tx_align::AlignError;
use tx_event::Event;
use tx_prim::TokenParameter;
use tx_seen::{Place, TexError};
use tx_state::{State, fail};
use tx_tabular::Alignment;

/// The run ends, since an alignment can't go on, if that isn't for want of memory.
pub(crate) fn fail_by_alignment(s: &mut State, error: AlignError) -> Result<Event, AllocError>
    ensures failed { IfOk result (λ event. IsStepped (fails (spec.error_of error)) s.old event s.new) }
    ensures memory { IfOk result (λ _. error ≢ OutOfMemory) }
{
    match error {
        AlignError::SizeOutOfRange => Ok(fail(s, TexError::SizeOutOfRange)),
        AlignError::TooDeep => Ok(fail(s, TexError::TooDeep)),
        AlignError::MisplacedAlignment => Ok(fail(s, TexError::MisplacedAlignment)),
        AlignError::OutOfMemory => Err(AllocError),
    }
}

/// The tokens of \everycr are read next. Its only error is want of memory.
pub(crate) fn read_everycr(s: &mut State) -> Result<(), AllocError>
    ensures state { OnOk result (state_of s.new ≡ spec.with_everycr (state_of s.old)) }
    ensures phase { OnOk result (s.new.phase ≡ s.old.phase) }
    ensures said { OnOk result (s.new.said ≡ s.old.said) }
{
    let every = s.table.tokens(&Place::Tokens(TokenParameter::Everycr))?;
    s.input.push_list(every, false)?;
    Ok(())
}

/// The innermost alignment is this, in those around it. Its only error is want of memory.
pub(crate) fn put_innermost(s: &mut State, alignment: Alignment) -> Result<(), AllocError>
    ensures state { OnOk result (state_of s.new ≡ record (state_of s.old) { alignments = alignment ∷ s.old.alignments }) }
    ensures phase { OnOk result (s.new.phase ≡ s.old.phase) }
    ensures said { OnOk result (s.new.said ≡ s.old.said) }
{
    s.alignments.push(alignment)
}
