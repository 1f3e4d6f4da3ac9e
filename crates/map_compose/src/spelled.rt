// How long a name is as lines spell it.
ghost use Rattle.std.specs.Prelude.{◌≡◌, ◌≤◌};
ghost use Rattle.ppdb_base.specs.Escaped.{is_plain as plain};
ghost use Rattle.map_compose.specs.Fits.{IsShort};
ghost use Rattle.map_compose.specs.Spelled.{spelled_length as length_of};

/// Whether a byte stands for itself.
fn is_plain(byte: u8) -> bool
    ensures { result ≡ plain byte }
{
    byte.is_ascii_graphic() && byte != b'\\'
}

/// How many bytes the spelling of a name has: one for each byte that stands for itself, four for
/// any other, and two if there is none.
pub fn spelled_length(name: &[u8]) -> u64
    requires { IsShort name.now }
    ensures length { result ≡ length_of name.now }
    ensures few { result ≤ 536870912 }
{
    if name.is_empty() {
        return 2;
    }
    let mut length = 0;
    for &byte in name {
        length += if is_plain(byte) { 1 } else { 4 };
    }
    length
}
