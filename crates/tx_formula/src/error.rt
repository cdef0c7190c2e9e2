//! What ends a run in a formula.
ghost use Rattle.std.specs.Prelude.{◌≡◌, ◌≢◌, IfOk};
ghost use Rattle.tx_formula.specs.declared.error.FormulaError.TheVariants.{OutOfMemory};
ghost use Rattle.tx_formula.specs.Errors.{error_of, of_display, of_list, of_math};
ghost use Rattle.tx_state.specs.Meanings.{IsStepped};
ghost use Rattle.tx_state.specs.Outcomes.{fails};

use std::alloc::AllocError;
use tx_display::DisplayError;
use tx_event::Event;
use tx_math::MathError;
use tx_mlist::MlistError;
use tx_seen::TexError;
use tx_state::{State, fail};

/// Why a formula can't be.
#[derive(Clone, Copy)]
pub enum FormulaError {
    /// This error ends the run.
    Refused(TexError),
    OutOfMemory,
}

impl From<AllocError> for FormulaError {
    ghost from_gives = { λ _ e. e ≡ OutOfMemory };

    fn from(_: AllocError) -> Self {
        FormulaError::OutOfMemory
    }
}

impl From<MlistError> for FormulaError {
    ghost from_gives = { λ error e. e ≡ of_list error };

    fn from(error: MlistError) -> Self {
        match error {
            MlistError::TooDeep => FormulaError::Refused(TexError::TooManyGroups),
            MlistError::OutOfMemory => FormulaError::OutOfMemory,
        }
    }
}

impl From<MathError> for FormulaError {
    ghost from_gives = { λ error e. e ≡ of_math error };

    fn from(error: MathError) -> Self {
        match error {
            MathError::SizeOutOfRange => FormulaError::Refused(TexError::SizeOutOfRange),
            MathError::TooDeep => FormulaError::Refused(TexError::TooDeep),
            MathError::NoFont | MathError::FewParameters => {
                FormulaError::Refused(TexError::BadFormula)
            }
            MathError::OutOfMemory => FormulaError::OutOfMemory,
        }
    }
}

impl From<DisplayError> for FormulaError {
    ghost from_gives = { λ error e. e ≡ of_display error };

    fn from(error: DisplayError) -> Self {
        match error {
            DisplayError::SizeOutOfRange => FormulaError::Refused(TexError::SizeOutOfRange),
            DisplayError::TooDeep => FormulaError::Refused(TexError::TooDeep),
            DisplayError::OutOfMemory => FormulaError::OutOfMemory,
        }
    }
}

/// The run ends by the error of a formula, if that isn't want of memory.
pub(crate) fn fail_by_formula(s: &mut State, error: FormulaError) -> Result<Event, AllocError>
    ensures failed { IfOk result (λ event. IsStepped (fails (error_of error)) s.old event s.new) }
    ensures memory { IfOk result (λ _. error ≢ OutOfMemory) }
{
    match error {
        FormulaError::Refused(error) => Ok(fail(s, error)),
        FormulaError::OutOfMemory => Err(AllocError),
    }
}
