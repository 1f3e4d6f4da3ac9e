// Why a line, or a text, is refused.
ghost use Rattle.std.specs.Prelude.{◌≡◌};
ghost use Rattle.ppdb_maps.specs.declared.refusal.Refusal.TheVariants.{Memory as OutOfMemory};
ghost use Rattle.ppdb_maps.specs.declared.refusal.MapError.TheVariants.{Memory as NoMemory};

use crate::rule::Rule;
use ppdb_base::Memory;
use std::alloc::AllocFailed;

/// Why a line was not added.
#[derive(Clone, Copy)]
pub enum Refusal {
    /// It breaks this rule, and none with a lesser number.
    Breaks(Rule),
    /// Memory ran out.
    Memory,
}

impl From<Memory> for Refusal {
    ghost from_gives = { λ _ e. e ≡ OutOfMemory };

    fn from(_: Memory) -> Self {
        Refusal::Memory
    }
}

impl<T: Drop> From<AllocFailed<T>> for Refusal {
    ghost from_gives = { λ _ e. e ≡ OutOfMemory };

    fn from(_: AllocFailed<T>) -> Self {
        Refusal::Memory
    }
}

/// Why a text has no map.
#[derive(Clone, Copy, Debug, PartialEq, Eq)]
pub enum MapError {
    /// The line, counted from 1, is the first that breaks a rule, and this is the least number of
    /// a rule that it breaks, 1 to 9.
    Line { line: u32, kind: u8 },
    /// Memory ran out.
    Memory,
}

impl From<Memory> for MapError {
    ghost from_gives = { λ _ e. e ≡ NoMemory };

    fn from(_: Memory) -> Self {
        MapError::Memory
    }
}
