ghost use Rattle.std.specs.Prelude.{◌≡◌};

use ppdb_base::Fault;
use std::alloc::{AllocError, AllocFailed};

/// Why a file is not verified.
#[derive(Clone, Copy, Debug, PartialEq, Eq)]
pub enum VerifyError {
    /// The first fault of the file.
    Fault(Fault),
    /// There was no memory left.
    Memory,
}

impl From<Fault> for VerifyError {
    ghost use Rattle.ppdb_verify_rules.specs.declared.errors.VerifyError.TheVariants.{Fault as TheFault};

    ghost from_gives = { λ f e. e ≡ TheFault f };

    fn from(fault: Fault) -> VerifyError {
        VerifyError::Fault(fault)
    }
}

impl From<AllocError> for VerifyError {
    ghost use Rattle.ppdb_verify_rules.specs.declared.errors.VerifyError.TheVariants.{Memory};

    ghost from_gives = { λ _ e. e ≡ Memory };

    fn from(_: AllocError) -> VerifyError {
        VerifyError::Memory
    }
}
