// Numbers that are appended.
ghost use Rattle.std.specs.Prelude.{◌≡◌, ◌<◌, ◌^◌, ◌++◌, OnOk, OnErr};
ghost use Rattle.cli_ints.specs.Shortest.{short_unsigned};

use cli_ints::spell_unsigned;
use ppdb_base::{Bytes, Memory};

/// Appends a number in its shortest form. After a refusal the bytes are unchanged.
pub fn number_into(number: u32, into: &mut Bytes) -> Result<(), Memory>
    requires { number < 2 ^ 29 }
    ensures ok { OnOk result (into.new ≡ into.old ++ short_unsigned number) }
    ensures err { OnErr result (into.new ≡ into.old) }
{
    into.append(spell_unsigned(number).as_slice())
}
