// The methods and their points.
ghost use Rattle.std.specs.Prelude.{◌≤◌, ◌<◌, ◌^◌, length};

use crate::counts::Counts;
use crate::points::{Unread, is_written_again, read_points};
use crate::stop::{Cell, Stop};
use crate::text::put_number;
use ppdb_base::{List, Memory, Sink, Steps, WriteError};
use ppdb_tables::{DOCUMENT, METHOD_DEBUG, STAND_ALONE_SIG, Tables};
use sequence_points::{Point, PointLimits, Span, read_points_can_be_written};
use std::alloc::Global;
use std::sync::ledger::Ledger;

/// A method whose blob of points is read.
#[derive(Clone, Copy)]
struct Method<'a> {
    row: u32,
    /// The Document column.
    column: u32,
    blob: &'a [u8],
}

/// Puts each method that has points, and its points.
pub fn put_methods<L: Ledger, O: Sink>(
    alloc: Global,
    tables: &Tables<'_>,
    out: &mut O,
    counts: &mut Counts,
    steps: &mut Steps<L>,
) -> Result<(), Stop> {
    let limits = PointLimits {
        documents: tables.rows(DOCUMENT),
        signatures: tables.rows(STAND_ALONE_SIG),
    };
    let _ = tables.shape();
    for index in 0..tables.rows(METHOD_DEBUG) {
        let row = index + 1;
        let cells = tables.method_debug(row, steps);
        let Some(blob) = tables.blobs().get(cells.points) else {
            return Err(Stop::Absent(Cell {
                table: METHOD_DEBUG,
                row,
            }));
        };
        if cells.document > limits.documents {
            return Err(Stop::Absent(Cell {
                table: METHOD_DEBUG,
                row,
            }));
        }
        if !blob.is_empty() {
            let method = Method {
                row,
                column: cells.document,
                blob,
            };
            put_method(alloc, method, limits, out, counts)?;
        }
    }
    Ok(())
}

/// Puts a method and its points, and writes the points again.
fn put_method<O: Sink>(
    alloc: Global,
    method: Method<'_>,
    limits: PointLimits,
    out: &mut O,
    counts: &mut Counts,
) -> Result<(), Stop>
    requires some { 0 < length method.blob.now }
    requires short { length method.blob.now < 2 ^ 32 }
    requires column { method.column ≤ limits.documents }
    requires documents { limits.documents < 0x20000000 }
    requires signatures { limits.signatures < 0x20000000 }
{
    let mut points = List::new(alloc);
    let signature = match read_points(method.blob, method.column, limits, &mut points) {
        Ok(signature) => signature,
        Err(Unread::Memory) => return Err(Stop::Memory),
        Err(Unread::Fault(fault)) => {
            let cell = Cell {
                table: METHOD_DEBUG,
                row: method.row,
            };
            return Err(Stop::Blob(cell, fault));
        }
    };
    put_points(out, method.row, signature, points.as_slice())?;
    counts.points = counts.points.saturating_add(1);
    read_points_can_be_written();
    if is_written_again(alloc, signature, points.as_slice(), method.blob)? {
        counts.written = counts.written.saturating_add(1);
    }
    Ok(())
}

/// Puts the line of a method and the lines of its points.
fn put_points<O: Sink>(
    out: &mut O,
    row: u32,
    signature: u32,
    points: &[Point],
) -> Result<(), WriteError> {
    put_number(out, b"method ", row)?;
    put_number(out, b" signature ", signature)?;
    out.put(b"\n")?;
    for point in points {
        put_point(out, point)?;
    }
    Ok(())
}

/// Puts the line of a point.
fn put_point<O: Sink>(out: &mut O, point: &Point) -> Result<(), WriteError> {
    put_number(out, b"point ", point.offset)?;
    put_number(out, b" ", point.document)?;
    match point.span {
        Span::Hidden => out.put(b" hidden\n"),
        Span::Lines {
            start_line,
            start_column,
            end_line,
            end_column,
        } => {
            put_number(out, b" ", start_line)?;
            put_number(out, b":", start_column)?;
            put_number(out, b" ", end_line)?;
            put_number(out, b":", end_column)?;
            out.put(b"\n")
        }
    }
}
