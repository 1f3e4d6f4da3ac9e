// What a line of a list says.
ghost use Rattle.std.specs.Prelude.{MatchOption};
ghost use Rattle.ppdb_queries_list.specs.Lists.{Asks, IsListed};
ghost use Rattle.ppdb_queries_list.specs.Said.{IsSaid, AreWords};
ghost use Rattle.ppdb_queries_list.specs.declared.line.MethodOffset.{MethodOffset as At};

use crate::word::{method_of, offset_of};
use ppdb_maps::{cut_at, is_silent};

/// An offset of a method.
#[derive(Clone, Copy, Debug, PartialEq, Eq)]
pub struct MethodOffset {
    /// The row of MethodDef, at most 16777215.
    pub method: u32,
    /// The IL offset, at most 2147483647.
    pub offset: u32,
}

/// What a line says.
#[derive(Clone, Copy, Debug, PartialEq, Eq)]
pub enum Said {
    /// Nothing: it is empty, or a comment.
    Nothing,
    /// It asks for an offset of a method.
    Asks(MethodOffset),
}

/// The method and the offset that are the two words of a line.
fn asked(line: &[u8]) -> Option<MethodOffset>
    ensures { MatchOption result ((at : At) → AreWords line.now at → ⊥) (AreWords line.now) }
{
    let (method, rest) = cut_at(line, b' ');
    let Some(rest) = rest else {
        return None;
    };
    let (offset, more) = cut_at(rest, b' ');
    if more.is_some() {
        return None;
    }
    let method = method_of(method)?;
    let offset = offset_of(offset)?;
    Some(MethodOffset { method, offset })
}

/// What a line says; none where a list cannot have it.
pub fn read_line(line: &[u8]) -> Option<Said>
    ensures { MatchOption result (IsListed line.now → ⊥) (IsSaid line.now) }
{
    if is_silent(line) {
        return Some(Said::Nothing);
    }
    let at = asked(line)?;
    Some(Said::Asks(at))
}
