// The breaks of one method.
ghost use Rattle.std.specs.Prelude.{◌≡◌, None};
ghost use Rattle.blob_grammar.specs.Reader.{tail};
ghost use Rattle.sequence_points.specs.Written.{first_of};
ghost use Rattle.break_lines.specs.Breaks.{break_of as the_break};

use crate::item::Break;
use sequence_points::{Point, PointCursor, Span};
use std::marker::Model;

/// The break that a point of a method is, where it covers the line in the document.
fn break_of(document: u32, line: u32, method: u32, point: Point) -> Option<Break>
    ensures { result ≡ the_break document line method point }
{
    match point.span {
        Span::Lines {
            start_line,
            start_column,
            end_line,
            end_column,
        } if point.document == document && start_line <= line && line <= end_line => Some(Break {
            method,
            offset: point.offset,
            start_line,
            start_column,
            end_line,
            end_column,
        }),
        _ => None,
    }
}

/// The points of a method that cover a line of a document, from one on.
#[derive(Drop)]
pub(crate) struct MethodBreaks<'a> {
    pub document: u32,
    pub line: u32,
    pub method: u32,
    pub points: PointCursor<'a>,
}

impl<'a> Model for MethodBreaks<'a> {
    ghost use Rattle.std.specs.Prelude.{◌≡◌, List, None};
    ghost use Rattle.break_lines.specs.Walks.{breaks_of};
    ghost use Rattle.break_lines.specs.declared.item.Break.{Break};

    ghost Value = { List Break };

    ghost view = { λ s. breaks_of s.document s.line s.method s.points.left.items };

    ghost invariant = { λ s. s.points.left.fault ≡ None };
}

impl<'a> MethodBreaks<'a> {
    /// The next break; None at the end.
    pub fn next(&mut self) -> Option<Break>
        ensures answer { result ≡ first_of self.old }
        ensures left { self.new ≡ tail self.old }
    {
        'points: while let Ok(Some(point)) = self.points.next() {
            if let Some(found) = break_of(self.document, self.line, self.method, point) {
                return Some(found);
            }
        }
        None
    }
}
