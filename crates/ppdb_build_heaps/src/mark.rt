// A number that tells items apart.
ghost use Rattle.std.specs.Prelude.{◌≡◌};
ghost use Rattle.ppdb_build_heaps.specs.Marks.{mark};

use std::hash::{DefaultHasher, Hasher};

/// The mark of an item, by which it is searched: its SipHash-1-3, without a key. Two items of one mark are rare: somebody would have to search
/// for them, in 2^32 trials.
pub(crate) fn mark_of(item: &[u8]) -> u64
    ensures { result ≡ mark item.now }
{
    let mut hasher = DefaultHasher::new();
    hasher.write(item);
    hasher.finish()
}
