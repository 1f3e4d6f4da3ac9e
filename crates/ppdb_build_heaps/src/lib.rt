//! The items of a heap, each of which is kept once, in order of first use.
#![tactic(auto)]

mod draft;
mod guids;
mod heap;
mod laws;
mod mark;
mod number;
mod put;
mod spelled;

pub use draft::{BlobPiece, put_index, use_pieces};
pub use guids::GuidHeap;
pub use heap::{Heap, HeapKind};
pub use laws::{
    all_uses_are_there, drafts_are_interned, heaps_are_first_uses, items_have_forms, items_stay,
    written_items_are_read,
};
pub use number::put_shortest;
