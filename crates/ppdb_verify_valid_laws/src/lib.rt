//! What holds of every valid file: it keeps the rules of its format, and its value is sound.
#![tactic(auto)]

mod laws;

pub use laws::{good_rows_are_kept_rules, valid_files_are_sound};
