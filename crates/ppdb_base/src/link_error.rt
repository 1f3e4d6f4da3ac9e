// Why a Source Link record is not read.
ghost use Rattle.std.specs.Prelude.{◌≡◌};
ghost use Rattle.ppdb_base.specs.declared.link_error.LinkError.TheVariants as link_errors;

use crate::list::Memory;

/// Why a Source Link record gives no addresses.
#[derive(Clone, Copy, Debug, PartialEq, Eq)]
pub enum LinkError {
    /// Its bytes are no JSON text.
    NotJson,
    /// The JSON value does not map names to addresses.
    Shape,
    /// There was no memory left.
    Memory,
}

impl From<Memory> for LinkError {
    ghost from_gives = { λ _ e. e ≡ link_errors.Memory };

    fn from(_: Memory) -> Self {
        LinkError::Memory
    }
}
