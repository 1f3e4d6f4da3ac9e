// Files that are opened for questions.
use ppdb_base::Steps;
use ppdb_verify::{Verified, verify};
use std::alloc::Global;
use std::sync::ledger::Ledger;

/// A file, where it is valid.
pub fn open<'a, L: Ledger>(
    alloc: Global,
    bytes: &'a [u8],
    steps: &mut Steps<L>,
) -> Option<Verified<'a>> {
    if bytes.len() > 0x0800_0000 {
        return None;
    }
    match verify(alloc, bytes, steps) {
        Ok(file) => Some(file),
        Err(_) => None,
    }
}
