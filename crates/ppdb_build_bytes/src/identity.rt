// The identity of a file.
ghost use Rattle.std.specs.Prelude.{◌≡◌, length};
ghost use Rattle.sha2.specs.Sha256.{sha256};
ghost use Rattle.ppdb_build_canon.specs.Canon.{id_from};

use sha2::{Digest, Sha256};

/// The identity that is made from the SHA-256 of a file, marked as a random GUID and a stamp.
pub(crate) fn id_of(file: &[u8]) -> [u8; 20]
    ensures value { result ≡ id_from (sha256 file.now) }
    ensures long { length result ≡ 20 }
{
    let digest = Sha256::digest(file);
    let mut id = [0; 20];
    id.copy_from_slice(&digest[..20]);
    id[7] = id[7] & 0x0f | 0x40;
    id[8] = id[8] & 0x3f | 0x80;
    id[19] |= 0x80;
    id
}
