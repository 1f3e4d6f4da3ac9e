//! Laws: two maps have one map of both.
#![tactic(auto)]

mod laws;

pub use laws::{composed_is_the_only_one, compositions_are_one, texts_of_both_are_one};
