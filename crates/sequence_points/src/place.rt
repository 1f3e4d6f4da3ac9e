//! How far a blob was read.

ghost use Rattle.std.specs.Prelude.{◌≡◌, pos};
ghost use Rattle.sequence_points.specs.Records.{sums};
ghost use Rattle.sequence_points.specs.Places.{entries_of, start_of, place_after};

/// The start of the last point that is not hidden.
#[derive(Clone, Copy)]
pub struct Start {
    /// Its line.
    pub line: u32,
    /// Its column.
    pub column: u32,
}

/// The last point.
#[derive(Clone, Copy)]
pub(crate) struct Last {
    pub(crate) offset: u32,
    pub(crate) start: Option<Start>,
}

/// How far a blob was read.
#[derive(Clone, Copy)]
pub(crate) struct Place {
    pub(crate) at: usize,
    pub(crate) document: u32,
    pub(crate) last: Option<Last>,
}

impl Place {
    /// The offset of the last point, 0 before the first.
    pub(crate) fn offset(&self) -> u32
        ensures { result ≡ (sums (entries_of self.now)).offset }
    {
        match self.last {
            Some(last) => last.offset,
            None => 0,
        }
    }

    pub(crate) fn has_point(&self) -> bool
        ensures { result ≡ (sums (entries_of self.now)).has_point }
    {
        self.last.is_some()
    }

    pub(crate) fn start(&self) -> Option<Start>
        ensures { result ≡ start_of self.now.last }
    {
        match self.last {
            Some(last) => last.start,
            None => None,
        }
    }

    pub(crate) fn has_visible(&self) -> bool
        ensures { result ≡ (sums (entries_of self.now)).has_visible }
    {
        self.start().is_some()
    }

    /// The place after a point.
    pub(crate) fn after_point(self, at: usize, offset: u32, start: Option<Start>) -> Place
        ensures { result ≡ place_after at self.document offset start }
    {
        Place {
            at,
            document: self.document,
            last: Some(Last { offset, start }),
        }
    }

    /// The line of the last point that is not hidden, 0 before the first.
    pub(crate) fn line(&self) -> u32
        ensures { (sums (entries_of self.now)).line ≡ pos result }
    {
        match self.start() {
            Some(start) => start.line,
            None => 0,
        }
    }

    pub(crate) fn column(&self) -> u32
        ensures { (sums (entries_of self.now)).column ≡ pos result }
    {
        match self.start() {
            Some(start) => start.column,
            None => 0,
        }
    }
}
