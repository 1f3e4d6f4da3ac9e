// Lists of items that are written one after the other.
ghost use Rattle.std.specs.Prelude.{◌≡◌, ◌++◌, ℕ, List, length, take, All, OnOk, OnErr};
ghost use Rattle.std.specs.List.{flat_map};

use ppdb_base::{Bytes, Memory};

/// An item that has one spelling.
pub trait Written {
    ghost can_be_written: { Self → Type 0 };

    ghost spelling: { Self → List ℕ };

    /// Appends it. After a refusal the bytes begin with what they held.
    fn write_into(&self, into: &mut Bytes) -> Result<(), Memory>
        requires { can_be_written self.now }
        ensures ok { OnOk result (into.new ≡ into.old ++ spelling self.now) }
        ensures err { OnErr result (take (length into.old) into.new ≡ into.old) };
}

/// Appends items. After a refusal the bytes are unchanged.
pub fn all_into<T: Written>(items: &[T], into: &mut Bytes) -> Result<(), Memory>
    requires { All T.can_be_written items.now }
    ensures ok { OnOk result (into.new ≡ into.old ++ flat_map T.spelling items.now) }
    ensures err { OnErr result (into.new ≡ into.old) }
{
    let len = into.len();
    for item in items {
        if item.write_into(into).is_err() {
            into.truncate(len);
            return Err(Memory);
        }
    }
    Ok(())
}
