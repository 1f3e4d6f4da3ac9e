// Numbers and zeros that are put after bytes.
ghost use Rattle.std.specs.Prelude.{◌≡◌, ◌++◌, ◌<◌, replicate, OnOk, OnErr};
ghost use Rattle.byteorder.specs.Endian.{little_bytes};
ghost use Rattle.ppdb_base.specs.Written.{BeginsWith};
ghost use Rattle.ppdb_build_layout.specs.Bytes as bytes;

use byteorder::{ByteOrder, LittleEndian};
use ppdb_base::{Bytes, Memory};

/// Appends a number in four bytes, the lowest first.
pub fn put_u32(number: u32, into: &mut Bytes) -> Result<(), Memory>
    ensures ok { OnOk result (into.new ≡ into.old ++ little_bytes 4 number) }
    ensures err { OnErr result (BeginsWith into.old into.new) }
{
    let mut spelled = [0; 4];
    LittleEndian::write_u32(&mut spelled, number);
    into.append(&spelled)
}

/// Appends a number in eight bytes, the lowest first.
pub fn put_u64(number: u64, into: &mut Bytes) -> Result<(), Memory>
    ensures ok { OnOk result (into.new ≡ into.old ++ little_bytes 8 number) }
    ensures err { OnErr result (BeginsWith into.old into.new) }
{
    let mut spelled = [0; 8];
    LittleEndian::write_u64(&mut spelled, number);
    into.append(&spelled)
}

/// How many zeros stand after a stream of so many bytes.
pub fn padding(len: u64) -> u64
    ensures exact { result ≡ bytes.padding len }
    ensures small { result < 4 }
{
    (4 - len % 4) % 4
}

/// Appends the zeros that stand after a stream of so many bytes.
pub fn put_padding(len: usize, into: &mut Bytes) -> Result<(), Memory>
    ensures ok { OnOk result (into.new ≡ into.old ++ replicate (bytes.padding len) 0) }
    ensures err { OnErr result (BeginsWith into.old into.new) }
{
    match padding(len as u64) {
        0 => Ok(()),
        1 => into.append(&[0]),
        2 => into.append(&[0, 0]),
        _ => into.append(&[0, 0, 0]),
    }
}
