//! The sample file of n methods: its value, that it is sound, and that its map fits it.
#![tactic(auto)]

mod hoisted;
mod laws;
mod methods;
mod parts;
mod scopes;
mod value;

pub use laws::{samples_fit, worked_samples};
pub use value::sample_value;
