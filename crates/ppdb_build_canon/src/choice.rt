// Which identity a written file has.

/// Which identity the written file has.
#[derive(Clone, Copy, Debug, PartialEq, Eq)]
pub enum IdChoice {
    /// One made from the file's SHA-256.
    Hash,
    /// The value's own.
    Keep,
}
