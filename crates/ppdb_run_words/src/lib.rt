//! The command line: which words ask for what, and the command that they are read as.
#![tactic(auto)]

mod command;
mod inputs;
pub mod laws;
mod options;
mod pairs;
mod question;
mod words;

pub use command::{Asked, Command};
pub use inputs::{Inputs, Pair};
pub use options::Options;
pub use question::Question;
pub use words::{MAX_INPUTS, Usage, read_words};
