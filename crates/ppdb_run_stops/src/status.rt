ghost use Rattle.std.specs.Prelude.{◌≡◌};
ghost use Rattle.ppdb_run_stops.specs.Status.{status_number};

/// How a run ends.
#[derive(Clone, Copy, Debug, PartialEq, Eq)]
pub enum Status {
    /// The answer was given.
    Done,
    /// A file broke a rule.
    Refused,
    /// The words are no command's.
    Usage,
    /// A read failed.
    ReadFault,
    /// A write failed, of a file or of the text.
    WriteFault,
    /// There was no memory left.
    Memory,
    /// A file was not there.
    Absent,
    /// A file was longer than 134217728 bytes.
    TooLong,
    /// A text is not a map, or a file does not fit its map or an earlier input.
    Unfit,
    /// What was to be written passed a limit of the format.
    Limit,
    /// The file has no such method.
    NoMethod,
    /// The Source Link record of the file gives no addresses.
    Unlinked,
    /// The file has no such document.
    NoDocument,
    /// Two maps do not fit one another.
    Uncomposed,
    /// A list has a line that is not allowed in a list.
    Unlisted,
}

impl Status {
    /// The status of the process.
    pub fn number(self) -> u8
        ensures { result ≡ status_number self }
    {
        match self {
            Status::Done => 0,
            Status::Refused => 1,
            Status::Usage => 2,
            Status::ReadFault => 3,
            Status::WriteFault => 4,
            Status::Memory => 5,
            Status::Absent => 6,
            Status::TooLong => 7,
            Status::Unfit => 8,
            Status::Limit => 9,
            Status::NoMethod => 10,
            Status::Unlinked => 11,
            Status::NoDocument => 12,
            Status::Uncomposed => 13,
            Status::Unlisted => 14,
        }
    }
}
