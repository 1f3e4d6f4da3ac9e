ghost use Rattle.std.specs.Prelude.{◌≤◌, ◌<◌, ◌^◌, length, IfOk, IfErr};
ghost use Rattle.blob_grammar.specs.Grammar.{octets, fixed};
ghost use Rattle.blob_grammar.specs.Reader.{IsThere, IsMissing};

use crate::fault::fault_at;
use cli_ints::IntFault;
use ppdb_base::BlobFault;

/// So many bytes at a place of a blob.
pub fn fixed_field(blob: &[u8], at: usize, len: usize) -> Result<&[u8], BlobFault>
    requires within { at ≤ length blob.now }
    requires short { length blob.now < 2 ^ 32 }
    requires some { 1 ≤ len }
    ensures found { IfOk result (λ bytes. IsThere (fixed len) blob.now at (octets bytes.now) len) }
    ensures missing { IfErr result (IsMissing (fixed len) blob.now at) }
{
    let left = &blob[at..];
    if left.len() < len {
        return Err(fault_at(IntFault::End, at));
    }
    Ok(&left[..len])
}
