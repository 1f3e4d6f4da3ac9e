//! The heaps of a debug file: texts, blobs and GUIDs by their indexes, and the names of documents.
#![tactic(auto)]

mod blobs;
mod guids;
mod join;
mod laws;
mod name;
mod part_cursor;
mod strings;

pub use blobs::Blobs;
pub use guids::Guids;
pub use join::{NameError, name_into};
pub use laws::{blob_law, name_indexes_are, names_are_read_once, written_names_are_read};
pub use name::{NameCursor, NameIndexes};
pub use strings::Strings;
