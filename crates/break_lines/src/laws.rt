// What the walks of this crate come to.
ghost use Rattle.break_lines.specs.Laws.{BreaksAreRows, NamesArePartsAfter};

/// The breaks of a file are those of its rows, one row after the other.
pub fn breaks_are_rows()
    ensures { BreaksAreRows }
{}

/// A joined name is its first part, and then each other part with the separator before it.
pub fn names_are_parts()
    ensures { NamesArePartsAfter }
{}
