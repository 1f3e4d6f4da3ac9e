//! The points of a packed blob.

ghost use Rattle.std.specs.Prelude.{◌≡◌, IfOk};
ghost use Rattle.sequence_points_packed.specs.Packed.{IsPacked, points_in};

use ppdb_base::{List, Memory};
use sequence_points::{Point, PointCursor, PointLimits};
use std::alloc::Global;

/// Any row of a document, and no local signature.
const LIMITS: PointLimits = PointLimits {
    documents: 0x1fff_ffff,
    signatures: 0,
};

/// The cursor over a packed blob.
fn points_of<'a>(column: u32, count: u32, blob: &'a [u8]) -> PointCursor<'a>
    requires { IsPacked column count blob.now }
    ensures { result.left ≡ record { items = points_in column blob.now; fault = None } }
{
    match PointCursor::new(blob, column, LIMITS) {
        Ok(cursor) => cursor,
        Err(_) => unreachable!(),
    }
}

/// The points of a packed blob, in a list with memory for no more.
pub(crate) fn unpacked(
    alloc: Global,
    column: u32,
    count: u32,
    blob: &[u8],
) -> Result<List<Point>, Memory>
    requires { IsPacked column count blob.now }
    ensures { IfOk result (λ points. points ≡ points_in column blob.now) }
{
    let mut points = List::with_capacity(alloc, count as usize)?;
    let mut cursor = points_of(column, count, blob);
    'points: loop {
        match cursor.next() {
            Ok(Some(point)) => points.push(point)?,
            Ok(None) => return Ok(points),
            Err(_) => unreachable!(),
        }
    }
}
