//! A law: which rows the file has that inputs are joined into, each as what becomes of one row of
//! one input, in the order in which the rows stand.
#![tactic(auto)]

mod laws;

pub use laws::joined_parts_are_flat;
