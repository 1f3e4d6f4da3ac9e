ghost use Rattle.std.specs.Prelude.{◌≡◌, ◌≤◌, length};
ghost use Rattle.metadata_root.specs.Streams.{bytes_of};

use metadata_root::{Root, StreamKind};
use ppdb_base::MAX_FILE_BYTES;

/// The bytes of a stream; one that is not listed has none.
pub fn stream_bytes<'a>(root: &Root<'a>, kind: StreamKind) -> &'a [u8]
    ensures bytes { result.now ≡ bytes_of root.now kind }
    ensures short { length result.now ≤ MAX_FILE_BYTES }
{
    match root.stream(kind) {
        Some(bytes) => bytes,
        None => &[],
    }
}
