// The pairs of a Source Link record.
ghost use Rattle.std.specs.Prelude.{◌≡◌, string_bytes};
ghost use Rattle.source_link.specs.Pairs as pairs;

use ppdb_base::{Bytes, List};

/// A document name, or the prefix of document names before a `*`, and the address of their sources.
#[derive(Drop)]
pub struct Pair {
    /// The name, or the prefix and a `*`.
    pub key: Bytes,
    /// The address; a `*` in that of a prefix stands for the rest of the name.
    pub address: Bytes,
}

/// Whether a key ends with a `*`.
pub(crate) fn is_pattern(key: &[u8]) -> bool
    ensures { result ≡ pairs.is_pattern key.now }
{
    key.ends_with(b"*")
}

/// A key without that `*`.
pub(crate) fn fixed_part(key: &[u8]) -> &[u8]
    ensures { result.now ≡ pairs.fixed_part key.now }
{
    if is_pattern(key) {
        &key[..key.len() - 1]
    } else {
        key
    }
}

/// Whether a `*` stands nowhere but at the end of a key.
fn is_key(key: &[u8]) -> bool
    ensures { result ≡ pairs.is_key key.now }
{
    !fixed_part(key).contains(&b'*')
}

/// Whether an address has exactly one `*`, where its key ends with one.
fn fits_key(key: &[u8], address: &[u8]) -> bool
    ensures { result ≡ pairs.fits_key key.now address.now }
{
    !is_pattern(key) || address.iter().filter(|byte| **byte == b'*').count() == 1
}

/// The pair of a key and an address, where they make one. It takes over their bytes.
pub(crate) fn pair_of(key: String, address: String) -> Option<Pair>
    ensures { result ≡ pairs.pair_of (string_bytes key) (string_bytes address) }
{
    if !is_key(key.as_bytes()) || !fits_key(key.as_bytes(), address.as_bytes()) {
        return None;
    }
    Some(Pair {
        key: List::from_vec(key.into_bytes()),
        address: List::from_vec(address.into_bytes()),
    })
}
