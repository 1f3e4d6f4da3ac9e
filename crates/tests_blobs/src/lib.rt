//! Tests over several crates: the rows that blobs name.
#![tactic(auto)]

#[cfg(test)]
mod named_rows;
