// Names and other bytes as printed text.
ghost use Rattle.std.specs.Prelude.{◌≡◌, [], ◌∷◌, All, IsTrue};
ghost use Rattle.std.specs.Bool.{OnTrue};
ghost use Rattle.ppdb_base.specs.Written.{PutsInto};
ghost use Rattle.ppdb_base.specs.Escaped.{escaped, escaped_byte, code_of, is_plain};
ghost use Rattle.hex.specs.Hex.{encode_lower};

use crate::sink::{Sink, WriteError};

/// Puts bytes as text: printable ASCII but for the space and the backslash as it is, any other byte
/// as `\x` and two digits, and no bytes as `\-`.
pub fn put_escaped<O: Sink>(out: &mut O, bytes: &[u8]) -> Result<(), WriteError>
    ensures { PutsInto O.written O.faults result out.old out.new (escaped bytes.now) }
{
    if bytes.is_empty() {
        return out.put(b"\\-");
    }
    if are_plain(bytes) {
        return out.put(bytes);
    }
    for &byte in bytes {
        put_escaped_byte(out, byte)?;
    }
    Ok(())
}

/// Whether each byte stands for itself, as in most names.
fn are_plain(bytes: &[u8]) -> bool
    ensures { OnTrue result (All (λ byte. IsTrue (is_plain byte)) bytes.now) }
{
    bytes.iter().all(|byte| stands_for_itself(*byte))
}

fn put_escaped_byte<O: Sink>(out: &mut O, byte: u8) -> Result<(), WriteError>
    ensures { PutsInto O.written O.faults result out.old out.new (escaped_byte byte) }
{
    if stands_for_itself(byte) {
        out.put(&[byte])
    } else {
        put_code(out, byte)
    }
}

/// Puts `\x` and the digits of a byte.
fn put_code<O: Sink>(out: &mut O, byte: u8) -> Result<(), WriteError>
    ensures { PutsInto O.written O.faults result out.old out.new (code_of byte) }
{
    out.put(b"\\x")?;
    out.put(&hex_digits(byte))
}

/// Whether a byte stands for itself: printable ASCII but for the space and the backslash.
pub fn stands_for_itself(byte: u8) -> bool
    ensures { result ≡ is_plain byte }
{
    byte.is_ascii_graphic() && byte != b'\\'
}

/// The two lower-case hexadecimal digits of a byte.
fn hex_digits(byte: u8) -> [u8; 2]
    ensures { result ≡ encode_lower (byte ∷ []) }
{
    let mut digits = [0; 2];
    let _ = hex::encode_to_slice([byte], &mut digits);
    digits
}
