//! The header of a blob: LocalSignature, and InitialDocument where the Document column is 0.

ghost use Rattle.std.specs.Prelude.{◌<◌, ◌≤◌, ◌^◌, length};
ghost use Rattle.sequence_points.specs.Places.{HeaderIs};

use crate::place::Place;
use crate::point::PointLimits;
use blob_grammar::{is_row, out_of_range, unsigned_field};
use ppdb_base::BlobFault;

/// The place after the header: reads InitialDocument, where the Document column is 0.
pub(crate) fn place_after_header(
    blob: &[u8],
    limits: PointLimits,
    column: u32,
    at: usize,
) -> Result<Place, BlobFault>
    requires within { at ≤ length blob.now }
    requires short { length blob.now < 2 ^ 32 }
    ensures { HeaderIs column limits blob.now at result }
{
    if column != 0 {
        return Ok(Place {
            at,
            document: column,
            last: None,
        });
    }
    let (row, len) = unsigned_field(blob, at)?;
    if !is_row(limits.documents, row) {
        return Err(out_of_range(at));
    }
    Ok(Place {
        at: at + len,
        document: row,
        last: None,
    })
}
