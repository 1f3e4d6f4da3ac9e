ghost use Rattle.std.specs.Prelude.{◌≡◌, ◌<◌, ◌≤◌, ◌^◌};
ghost use Rattle.type_blobs.specs.Types.{tag_of, number_of, IsToken};

use crate::types::TypeToken;

/// The tag of a table of types.
fn tag_of(table: u8) -> u32
    ensures value { result ≡ tag_of table }
    ensures small { result ≤ 2 }
{
    match table {
        0x02 => 0,
        0x01 => 1,
        _ => 2,
    }
}

/// The number of a type.
pub fn number_of(token: &TypeToken) -> u32
    requires { IsToken token.now }
    ensures value { result ≡ number_of token.now }
    ensures small { result < 2 ^ 29 }
{
    4 * token.row + tag_of(token.table)
}
