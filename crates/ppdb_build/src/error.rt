// Why a file is not written.
use ppdb_base::{Limit, Memory};

/// Why a file is not written.
#[derive(Clone, Copy, Debug, PartialEq, Eq)]
pub enum BuildError {
    /// The value passes this limit, the first in their order.
    Limit(Limit),
    /// There was no memory left.
    Memory,
}

impl From<Memory> for BuildError {
    ghost use Rattle.std.specs.Prelude.{◌≡◌};
    ghost use Rattle.ppdb_build.specs.declared.error.BuildError.TheVariants as errors;

    ghost from_gives = { λ _ e. e ≡ errors.Memory };

    fn from(_: Memory) -> Self {
        BuildError::Memory
    }
}
