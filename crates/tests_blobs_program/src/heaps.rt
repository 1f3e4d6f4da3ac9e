// The heaps of a file.
use metadata_root::{Root, StreamKind};
use ppdb_build_layout::HeapLens;

/// The bytes of a heap; one that is not listed has none.
fn heap<'a>(root: &Root<'a>, kind: StreamKind) -> &'a [u8] {
    root.stream(kind).unwrap_or(b"")
}

/// The bytes of the heaps, in the order in which they stand in a file that is laid out.
pub fn heaps_of<'a>(root: &Root<'a>) -> [&'a [u8]; 3] {
    [
        heap(root, StreamKind::Strings),
        heap(root, StreamKind::Guids),
        heap(root, StreamKind::Blobs),
    ]
}

/// How long the heaps are.
pub fn lens_of(heaps: [&[u8]; 3]) -> HeapLens {
    let [texts, guids, blobs] = heaps;
    HeapLens {
        texts: texts.len() as u64,
        guids: guids.len() as u64,
        blobs: blobs.len() as u64,
    }
}
