// What the parts of joined inputs are, row by row.
ghost use Rattle.ppdb_merge_parts.specs.Flat.{JoinedPartsAreFlat};

/// The parts of the file that inputs are joined into are what becomes of the rows of the inputs.
pub fn joined_parts_are_flat()
    ensures { JoinedPartsAreFlat }
{}
