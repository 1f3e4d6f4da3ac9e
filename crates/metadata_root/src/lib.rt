//! The metadata root of a debug file, and the streams that it lists (ECMA-335 II.24.2).
#![tactic(auto)]

mod fields;
mod header;
mod kind;
mod root;
mod stream;

pub use fields::{fault_at, u8_at, u32_at, u64_at};
pub use kind::StreamKind;
pub use root::{Root, read_root};
