// An item as its heap spells it.
ghost use Rattle.std.specs.Prelude.{◌≡◌, ◌++◌, length, take, OnOk};
ghost use Rattle.ppdb_build_heaps.specs.Kinds.{spelled};

use crate::heap::HeapKind;
use crate::number::put_shortest;
use ppdb_base::{Bytes, Memory};

/// Appends an item as its heap spells it. The bytes before stay, also after a refusal.
pub(crate) fn put_item(kind: HeapKind, item: &[u8], into: &mut Bytes) -> Result<(), Memory>
    ensures put { OnOk result (into.new ≡ into.old ++ spelled kind item.now) }
    ensures kept { take (length into.old) into.new ≡ into.old }
{
    match kind {
        HeapKind::Texts => {
            into.append(item)?;
            into.append(&[0])
        }
        HeapKind::Blobs => {
            put_shortest(item.len() as u64, into)?;
            into.append(item)
        }
    }
}
