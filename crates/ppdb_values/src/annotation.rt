use crate::custom::CustomBody;
use ppdb_base::List;

/// A record of custom debug information, apart from the row that it belongs to.
#[derive(Drop)]
pub struct Custom {
    /// The GUID of its kind, as its bytes stand in the heap.
    pub kind: [u8; 16],
    /// What it says.
    pub value: CustomBody,
}

/// An item, with the custom records on it.
#[derive(Drop)]
pub struct Annotation<T> {
    pub item: T,
    pub customs: List<Custom>,
}
