// Numbers in their shortest form.
ghost use Rattle.std.specs.Prelude.{◌≡◌, ◌++◌, OnOk, OnErr};
ghost use Rattle.ppdb_build_heaps.specs.Items.{shortest};

use cli_ints::spell_unsigned;
use ppdb_base::{Bytes, Memory};

/// Appends a number in its shortest form, or the greatest that has one.
pub fn put_shortest(number: u64, into: &mut Bytes) -> Result<(), Memory>
    ensures put { OnOk result (into.new ≡ into.old ++ shortest number) }
    ensures err { OnErr result (into.new ≡ into.old) }
{
    into.append(spell_unsigned(number.min(0x1fff_ffff) as u32).as_slice())
}
