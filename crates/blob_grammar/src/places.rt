/// A blob index inside a blob.
#[derive(Clone, Copy, Debug, PartialEq, Eq)]
pub struct PlacedIndex {
    /// The byte of the blob at which the index stands.
    pub byte: u32,
    pub index: u32,
}
