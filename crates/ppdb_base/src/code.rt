ghost use Rattle.std.specs.Prelude.{◌≡◌};
ghost use Rattle.ppdb_base.specs.Place.{number_of};

/// A rule that a file can break. The number of each is printed after an F.
#[derive(Clone, Copy, Debug, PartialEq, Eq)]
pub enum Code {
    /// The file is no metadata.
    NotMetadata = 1,
    /// The file is a Windows PDB.
    WindowsPdb = 2,
    /// A field of the root passes the file's end.
    RootTruncated = 3,
    /// A stream's name is empty, not ASCII or too long.
    StreamName = 4,
    /// A stream's name is not known.
    StreamUnknown = 5,
    /// A stream's name stands twice.
    StreamRepeated = 6,
    /// A stream passes the file's end.
    StreamBounds = 7,
    /// A stream that must be there is not listed.
    StreamMissing = 8,
    /// A field of `#Pdb` passes the stream's end.
    PdbShort = 9,
    /// `#Pdb` counts the rows of a table that is no type-system table.
    PdbTables = 10,
    /// `#Pdb` counts too many rows.
    PdbRows = 11,
    /// The entry point is no method that is there.
    EntryPoint = 12,
    /// A field before the tables passes the stream's end.
    TablesShort = 13,
    /// An unknown bit of HeapSizes is set.
    HeapBits = 14,
    /// `#~` has a table that is no debug table.
    TablesForeign = 15,
    /// A table has too many rows.
    TableRows = 16,
    /// A row passes the stream's end.
    TablesBounds = 17,
    /// MethodDebugInformation has not as many rows as MethodDef.
    MethodRows = 18,
    /// A text is not there.
    StringIndex = 19,
    /// A blob is not there.
    BlobIndex = 20,
    /// A GUID is not there.
    GuidIndex = 21,
    /// A row is not there.
    RowIndex = 22,
    /// A coded parent's tag names no table.
    CodedTag = 23,
    /// A document has no name.
    NameNil = 24,
    /// Two documents have one name.
    DocumentRepeated = 25,
    /// The scopes are out of order.
    ScopeOrder = 26,
    /// A scope's range is empty or ends too late.
    ScopeRange = 27,
    /// Two scopes meet, and neither holds the other.
    ScopeCrossing = 28,
    /// A list is out of range or falls.
    ListRange = 29,
    /// Two variables of a scope have one slot.
    SlotRepeated = 30,
    /// Two variables or constants of a scope have one name.
    NameRepeated = 31,
    /// A chain of import scopes never ends.
    ImportCycle = 32,
    /// The state machines are out of order.
    MachineOrder = 33,
    /// Two state machines have one kickoff method.
    KickoffRepeated = 34,
    /// The custom records are out of order.
    CustomOrder = 35,
    /// A custom record's parent is not of its kind's table.
    KindParent = 36,
    /// A blob ends inside a field, or where one must come.
    BlobEnd = 37,
    /// A compressed integer has no form.
    IntegerForm = 38,
    /// A field is not allowed there.
    ValueRange = 39,
    /// The texts and blobs are too long in all.
    SpanTotal = 40,
}

impl Code {
    /// The number by which the code is printed, and faults at one place are ordered.
    pub fn number(self) -> u8
        ensures { result ≡ number_of self }
    {
        self as u8
    }
}
