//! What ends a run where pages are built.
ghost use Rattle.std.specs.Prelude.{◌≡◌};
ghost use Rattle.tx_galley.specs.declared.errors.GalleyError.TheVariants.{OutOfMemory};
ghost use Rattle.tx_galley.specs.Errors.{of_output, of_pack, of_page, of_split};

use std::alloc::AllocError;
use tx_insert::SplitError;
use tx_output::OutputError;
use tx_pack::PackError;
use tx_pagebuilder::PageError;
use tx_seen::TexError;

/// Why the page builder can't go on.
#[derive(Clone, Copy)]
pub enum GalleyError {
    /// This error ends the run.
    Refused(TexError),
    OutOfMemory,
}

impl From<AllocError> for GalleyError {
    ghost from_gives = { λ _ e. e ≡ OutOfMemory };

    fn from(_: AllocError) -> Self {
        GalleyError::OutOfMemory
    }
}

impl From<PageError> for GalleyError {
    ghost from_gives = { λ error e. e ≡ of_page error };

    fn from(error: PageError) -> Self {
        match error {
            PageError::ClassOutOfRange => GalleyError::Refused(TexError::NumberOutOfRange),
            PageError::SizeOutOfRange => GalleyError::Refused(TexError::SizeOutOfRange),
            PageError::TooDeep => GalleyError::Refused(TexError::TooDeep),
            PageError::EndlessShrink => GalleyError::Refused(TexError::InfiniteShrink),
            PageError::WrongBox => GalleyError::Refused(TexError::MissingBox),
            PageError::OutOfMemory => GalleyError::OutOfMemory,
        }
    }
}

impl From<OutputError> for GalleyError {
    ghost from_gives = { λ error e. e ≡ of_output error };

    fn from(error: OutputError) -> Self {
        match error {
            OutputError::OccupiedPageBox => GalleyError::Refused(TexError::OccupiedPageBox),
            OutputError::SizeOutOfRange => GalleyError::Refused(TexError::SizeOutOfRange),
            OutputError::TooDeep => GalleyError::Refused(TexError::TooDeep),
            OutputError::TooManyDeadCycles => GalleyError::Refused(TexError::TooManyDeadCycles),
            OutputError::UnbalancedOutput => GalleyError::Refused(TexError::UnbalancedOutput),
            OutputError::OutOfMemory => GalleyError::OutOfMemory,
        }
    }
}

impl From<SplitError> for GalleyError {
    ghost from_gives = { λ error e. e ≡ of_split error };

    fn from(error: SplitError) -> Self {
        match error {
            SplitError::SizeOutOfRange => GalleyError::Refused(TexError::SizeOutOfRange),
            SplitError::EndlessShrink => GalleyError::Refused(TexError::InfiniteShrink),
            SplitError::OutOfMemory => GalleyError::OutOfMemory,
        }
    }
}

impl From<PackError> for GalleyError {
    ghost from_gives = { λ error e. e ≡ of_pack error };

    fn from(error: PackError) -> Self {
        match error {
            PackError::SizeOutOfRange => GalleyError::Refused(TexError::SizeOutOfRange),
            PackError::TooDeep => GalleyError::Refused(TexError::TooDeep),
            PackError::OutOfMemory => GalleyError::OutOfMemory,
        }
    }
}
