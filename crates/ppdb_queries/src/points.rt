// The point of an offset.
ghost use Rattle.std.specs.Prelude.{◌≡◌, ◌+◌, ◌≤◌, None, IfOk, OnOk, OnErr};
ghost use Rattle.ppdb_tables.specs.RawOf.{raw_of};
ghost use Rattle.ppdb_values.specs.Parts.{last_point};
ghost use Rattle.ppdb_values.specs.Rules.{HasRow};
ghost use Rattle.ppdb_verify.specs.Views.{tables_of, raw_file};
ghost use Rattle.ppdb_queries.specs.Points.{PointIs};
ghost use Rattle.ppdb_queries.specs.Runs.{IsNoMethod};

use crate::method::{NoMethod, judge_method};
use ppdb_base::Steps;
use ppdb_heaps::NameCursor;
use ppdb_tables::METHOD_DEBUG;
use ppdb_verify::Verified;
use ppdb_verify_rows::{count, document, method_debug, name, points_of};
use sequence_points::{Point, PointCursor};
use std::sync::ledger::Ledger;

/// A sequence point, with the method's local signature and the name of the point's document.
#[derive(Drop)]
pub struct PointAt<'a> {
    /// The point.
    pub point: Point,
    /// The row of StandAloneSig of the method's local variables, or 0.
    pub signature: u32,
    /// The name of the document, from its first part.
    pub name: NameCursor<'a>,
}

/// The last point that is not after the offset.
fn last_not_after(mut cursor: PointCursor<'_>, offset: u32) -> Option<Point>
    requires { cursor.left.fault ≡ None }
    ensures { result ≡ last_point cursor.entry.left.items offset }
{
    let mut last = None;
    'points: while let Ok(Some(point)) = cursor.next() {
        if point.offset <= offset {
            last = Some(point);
        }
    }
    last
}

/// The last sequence point of a method that is not after an offset; None exactly where there is no such point. It reads at most
/// two rows.
///
/// # Errors
///
/// The method is 0 or above the rows of MethodDef.
pub fn point_at<'a, L: Ledger>(
    file: &Verified<'a>,
    method: u32,
    offset: u32,
    steps: &mut Steps<L>,
) -> Result<Option<PointAt<'a>>, NoMethod>
    ensures none { OnErr result (IsNoMethod (raw_of (tables_of file.now)) method) }
    ensures there { OnOk result (HasRow (raw_of (tables_of file.now)) 0x06 method) }
    ensures point { IfOk result (PointIs (raw_file file.now) method offset) }
    ensures later { steps.old ≤ steps.new }
    ensures cost { steps.new ≤ steps.old + 2 }
{
    judge_method(file, method)?;
    let _ = file.keeps();
    if count(file, METHOD_DEBUG) < method {
        return Ok(None);
    }
    let row = method_debug(file, method, steps);
    let Some(points) = points_of(file, method, &row) else {
        return Ok(None);
    };
    let signature = points.signature();
    let Some(point) = last_not_after(points, offset) else {
        return Ok(None);
    };
    let document = document(file, point.document, steps);
    let name = name(file, point.document, &document);
    Ok(Some(PointAt {
        point,
        signature,
        name,
    }))
}
