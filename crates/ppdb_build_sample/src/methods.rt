// The methods of the sample file, with their points.
ghost use Rattle.std.specs.Prelude.{◌≡◌, ◌≤◌, IfOk, map};
ghost use Rattle.sequence_points.specs.declared.point.Span.TheVariants.{Lines};
ghost use Rattle.ppdb_build_sample.specs.Sample.{counted, sample_method};

use ppdb_base::{List, Memory};
use ppdb_values::MethodValue;
use sequence_points::{Point, Span};
use std::alloc::Global;

/// From one line and column to another.
fn lines(start: (u32, u32), end: (u32, u32)) -> Span
    ensures { result ≡ Lines start.0 start.1 end.0 end.1 }
{
    Span::Lines {
        start_line: start.0,
        start_column: start.1,
        end_line: end.0,
        end_column: end.1,
    }
}

/// The four points of a method, the second of which is hidden.
fn points(alloc: Global, method: u32) -> Result<List<Point>, Memory>
    requires { method ≤ 100000 }
    ensures { IfOk result (λ points. points ≡ (sample_method method).points) }
{
    let (line, document) = (4 * method, (method + 7) / 8);
    let points = [
        Point {
            offset: 0,
            document,
            span: lines((line, 1), (line, 9)),
        },
        Point {
            offset: 4,
            document,
            span: Span::Hidden,
        },
        Point {
            offset: 8,
            document,
            span: lines((line + 1, 5), (line + 2, 3)),
        },
        Point {
            offset: 12,
            document,
            span: lines((line + 2, 1), (line + 2, 2)),
        },
    ];
    List::copied(alloc, &points)
}

/// The methods 1 to `n`.
pub fn methods(alloc: Global, n: u32) -> Result<List<MethodValue>, Memory>
    requires { n ≤ 100000 }
    ensures { IfOk result (λ methods. methods ≡ map sample_method (counted n)) }
{
    let mut methods = List::new(alloc);
    for before in 0..n {
        methods.push(MethodValue {
            method: before + 1,
            signature: 1,
            points: points(alloc, before + 1)?,
        })?;
    }
    Ok(methods)
}
