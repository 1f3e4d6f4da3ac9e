//! Tests over several crates: values that are sound or not, and what values are written as.
#![tactic(auto)]

#[cfg(test)]
mod limits;
#[cfg(test)]
mod parts;
#[cfg(test)]
mod samples;
#[cfg(test)]
mod soundness;
#[cfg(test)]
mod worked;
