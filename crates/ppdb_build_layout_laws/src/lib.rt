//! A file that is laid out is read as it was.
#![tactic(auto)]

mod laws;

pub use laws::laid_out_files_are_read;
