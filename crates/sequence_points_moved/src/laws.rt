//! What the last point needs.

ghost use Rattle.sequence_points_moved.specs.MovedBlob.{KeptToTheEnd};

/// Up to the greatest number, what is kept is what is kept up to the old size.
pub fn kept_to_the_end()
    ensures { KeptToTheEnd }
{}
