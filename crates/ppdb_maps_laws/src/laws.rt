// What is promised of where offsets go.
ghost use Rattle.ppdb_maps_laws.specs.Searched.{OffsetsAreMoved};

/// Of runs that rise, an offset moves to the image of the least stop that is not below it, a kept
/// one to its own image, and the test on two offsets says whether one between them is kept.
pub fn offsets_are_moved()
    ensures { OffsetsAreMoved }
{}
