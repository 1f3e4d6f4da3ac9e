//! A law: which custom records the file has that inputs are joined into, each as what becomes of
//! one record of one input, on the row that its parent becomes.
#![tactic(auto)]

mod laws;

pub use laws::{import_scopes_follow, joined_records_are_flat};
