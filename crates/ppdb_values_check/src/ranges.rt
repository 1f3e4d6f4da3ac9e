// Ranges of IL offsets.
ghost use Rattle.std.specs.Prelude.{◌↔◌, ◌<◌, IsTrue};
ghost use Rattle.ppdb_values.specs.Ranges.{ComesAfter};

use custom_info::Range;
use ppdb_base::MAX_OFFSET;

/// Whether a range holds an offset and ends in range.
pub(crate) fn is_range(range: Range) -> bool
    ensures { IsTrue result ↔ ((range.start < range.end) × (range.end < 0x80000000)) }
{
    range.start < range.end && range.end <= MAX_OFFSET
}

/// Whether a range starts later, or there and does not end later.
pub(crate) fn comes_after(range: Range, later: Range) -> bool
    ensures { IsTrue result ↔ ComesAfter range later }
{
    range.start < later.start || (range.start == later.start && later.end <= range.end)
}
