//! The ranges of lines, columns and rows.

ghost use Rattle.std.specs.Prelude.{◌≡◌, ◌≤ℤ◌, neg_ℤ, pos, ◌+ℤ◌};
ghost use Rattle.sequence_points.specs.Ranges.{is_line as line_fits, is_column as column_fits};
ghost use Rattle.sequence_points.specs.Places.{RangeIs, PassesAs};

pub(crate) fn stepped(base: u32, step: i64) -> i64
    requires low { neg_ℤ (pos 4294967296) ≤ℤ step }
    requires high { step ≤ℤ pos 4294967296 }
    ensures { result ≡ pos base +ℤ step }
{
    base as i64 + step
}

/// A line after a step, and the one that is `more` below it, where both lie in their range.
pub(crate) fn line_range(base: u32, step: i64, more: u32) -> Option<(u32, u32)>
    requires low { neg_ℤ (pos 4294967296) ≤ℤ step }
    requires high { step ≤ℤ pos 4294967296 }
    ensures { RangeIs line_fits (pos base +ℤ step) (pos more) result }
{
    let first = as_line(stepped(base, step))?;
    let last = as_line(stepped(first, more as i64))?;
    Some((first, last))
}

/// A column after a step, and the one that is `more` after it, where both lie in their range.
pub(crate) fn column_range(base: u32, step: i64, more: i64) -> Option<(u32, u32)>
    requires low { neg_ℤ (pos 4294967296) ≤ℤ step }
    requires high { step ≤ℤ pos 4294967296 }
    requires more_low { neg_ℤ (pos 4294967296) ≤ℤ more }
    requires more_high { more ≤ℤ pos 4294967296 }
    ensures { RangeIs column_fits (pos base +ℤ step) more result }
{
    let first = as_column(stepped(base, step))?;
    let last = as_column(stepped(first, more))?;
    Some((first, last))
}

/// The line, where it lies in its range.
pub(crate) fn as_line(line: i64) -> Option<u32>
    ensures { PassesAs line_fits line result }
{
    if 0 <= line && line < 0x2000_0000 && line != 0xfe_efee {
        Some(line as u32)
    } else {
        None
    }
}

/// The column, where it lies in its range.
pub(crate) fn as_column(column: i64) -> Option<u32>
    ensures { PassesAs column_fits column result }
{
    if 0 <= column && column < 0x1_0000 {
        Some(column as u32)
    } else {
        None
    }
}
