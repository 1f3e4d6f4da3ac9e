//! Tests over several crates: the streams of a file, and its heaps, read and written.
#![tactic(auto)]

#[cfg(test)]
mod heaps;
#[cfg(test)]
mod items;
#[cfg(test)]
mod root;
