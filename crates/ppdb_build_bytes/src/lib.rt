//! The bytes of a draft: its length, the limits that it passes, and the file with its identity.
#![tactic(auto)]

mod identity;
mod late;
mod layout;

pub use late::{draft_len, late_limit};
pub use layout::{counts_of, file_of};
