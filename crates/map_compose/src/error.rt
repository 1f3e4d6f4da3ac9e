// Why two maps are not made into one.
ghost use Rattle.std.specs.Prelude.{◌≡◌};
ghost use Rattle.map_compose.specs.declared.error.ComposeError.TheVariants as errors;

use ppdb_base::Memory;

/// Why two maps are not made into one.
#[derive(Clone, Copy, Debug, PartialEq, Eq)]
pub enum ComposeError {
    /// After the first map the method has `first` bytes of IL, and before the second it has
    /// `second`. It is the least method of which this holds.
    SizesDiffer {
        method: u32,
        first: u32,
        second: u32,
    },
    /// The text would have so many bytes, and a map's text has at most 134217728.
    TooLong {
        bytes: u64,
    },
    /// There was no memory left. It is answered too of maps whose names are more or longer than a
    /// map text can have, which no text has.
    Memory,
}

impl From<Memory> for ComposeError {
    ghost from_gives = { λ _ e. e ≡ errors.Memory };

    fn from(_: Memory) -> Self {
        ComposeError::Memory
    }
}
