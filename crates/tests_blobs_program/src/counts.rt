// How many blobs were read.
use crate::text::put_number;
use ppdb_base::{Sink, WriteError};

/// How many blobs of each kind were read.
#[derive(Clone, Copy, Default)]
pub struct Counts {
    /// Blobs of sequence points.
    pub points: u32,
    /// Blobs of sequence points that are written again to the same bytes.
    pub written: u32,
    pub constants: u32,
    /// Records of async method stepping information.
    pub steps: u32,
    /// Records of hoisted local scopes.
    pub slots: u32,
}

/// Puts the line of the counts.
pub fn put_counts<O: Sink>(out: &mut O, counts: &Counts) -> Result<(), WriteError> {
    put_number(out, b"written ", counts.written)?;
    put_number(out, b" of ", counts.points)?;
    put_number(out, b" points, constants ", counts.constants)?;
    put_number(out, b", steps ", counts.steps)?;
    put_number(out, b", slots ", counts.slots)?;
    out.put(b"\n")
}
