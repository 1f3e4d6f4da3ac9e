//! What holds of every file whose rows keep all rules: the rules as facts that a reader can use.
#![tactic(auto)]

mod laws;

pub use laws::{accepted_files_keep_rules, cursors_never_fault};
