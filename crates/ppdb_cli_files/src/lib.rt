//! The files and the standard output of the system. A file is replaced so that it is never lost:
//! which calls to the system are made, in which order, and what may be found after each.
#![tactic(auto)]

mod place;
mod reading;
mod real_folder;
mod replace;
mod std_sink;
mod streams;
mod system_place;

pub use place::{Call, Made, Place};
pub use real_folder::{RealFolder, Reason};
pub use replace::{ReplaceError, put_file, replace_file};
pub use std_sink::StdSink;
