//! Sequence points of a method (Portable PDB v1.0, "Sequence Points Blob"), both ways.
#![tactic(auto)]

mod cursor;
mod header;
mod laws;
mod moved;
mod place;
mod point;
mod ranges;
mod records;
mod room;
mod step;
mod writer;

pub use cursor::{PointCursor, blob_fault};
pub use laws::{
    points_are_read_once, read_points_are_in_range, read_points_can_be_written,
    written_points_are_read,
};
pub use moved::points_move_in_order;
pub use place::Start;
pub use point::{Point, PointLimits, Span, single_document};
pub use step::{large_step, start_after};
pub use writer::{PointError, point_into, points_into};
