//! The canonical text of a map: how its lines are put, and that it is read as this map.
#![tactic(auto)]

mod counted;
mod laws;
mod lines;

pub use counted::{Counted, digits_of};
pub use laws::{texts_are_judged, texts_are_read};
