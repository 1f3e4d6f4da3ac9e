//! A list of offsets of methods: its text, read line by line, and the numbers that its words say.
#![tactic(auto)]

mod check;
mod decimal;
mod laws;
mod line;
mod word;

pub use check::check_list;
pub use decimal::number;
pub use laws::lists_are_one;
pub use line::{MethodOffset, Said, read_line};
pub use ppdb_maps::first_line;
