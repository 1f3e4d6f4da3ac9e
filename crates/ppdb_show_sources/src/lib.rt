//! The texts that say where the sources of documents are found, and where a debugger may stop: a
//! line for each document with its address, and a line for each break.
#![tactic(auto)]

mod breaks;
mod links;

pub use breaks::put_breaks;
pub use links::{file_links, put_links};
