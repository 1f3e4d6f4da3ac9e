//! Tests over several crates: what is asked of a verified file, and a copy of it.
#![tactic(auto)]

#[cfg(test)]
mod breaks;
#[cfg(test)]
mod copies;
#[cfg(test)]
mod files;
#[cfg(test)]
mod on_rows;
#[cfg(test)]
mod opening;
