// Rows with their images, and why there is none.
ghost use Rattle.std.specs.Prelude.{◌≡◌};
ghost use Rattle.ppdb_merge_names.specs.declared.imaged.ReferenceError.TheVariants as reference_errors;

use ppdb_base::{Memory, Place};

/// A row that is named, with its image.
#[derive(Clone, Copy, Debug, PartialEq, Eq)]
pub struct Imaged {
    /// The number of the row's table.
    pub table: u8,
    pub row: u32,
    /// The number of the image's table.
    pub to: u8,
    pub image: u32,
}

/// Why the rows that a file names have no images.
#[derive(Clone, Copy, Debug, PartialEq, Eq)]
pub enum ReferenceError {
    /// The row is named at the place, and its image is missing.
    Unmapped { table: u8, row: u32, place: Place },
    Memory,
}

impl From<Memory> for ReferenceError {
    ghost from_gives = { λ _ e. e ≡ reference_errors.Memory };

    fn from(_: Memory) -> Self {
        ReferenceError::Memory
    }
}
