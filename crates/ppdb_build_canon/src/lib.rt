//! The one file of a value, byte for byte, and the values that have none.
#![tactic(auto)]

mod choice;
mod laws;

pub use choice::IdChoice;
pub use laws::{
    canonical_files_forget_ids, ids_stand_after_the_root, values_without_limits_are_small,
    worked_files_are_canonical, worked_parts_are_canonical,
};
pub use ppdb_base::Limit;
