// The fields of imports.
ghost use Rattle.std.specs.Prelude.{◌≡◌, ◌≤◌};
ghost use Rattle.type_blobs.specs.Imports.{parts_of, names_text};

/// What a field of an import says.
#[derive(Clone, Copy, Debug, PartialEq, Eq)]
pub enum ImportPart {
    /// Which fields follow, from 1 to 9.
    Kind,
    /// An alias, by the index of its text in `#Blob`.
    Alias,
    /// A row of AssemblyRef.
    Assembly,
    /// A namespace, by the index of its text in `#Blob`.
    Namespace,
    /// A type, by its number.
    Target,
}

impl ImportPart {
    /// Whether the field names a text.
    pub fn names_text(self) -> bool
        ensures { result ≡ names_text self }
    {
        match self {
            ImportPart::Alias | ImportPart::Namespace => true,
            ImportPart::Kind | ImportPart::Assembly | ImportPart::Target => false,
        }
    }
}

/// A field of an import.
#[derive(Clone, Copy, Debug, PartialEq, Eq)]
pub struct ImportField {
    /// The byte of the blob at which the field stands.
    pub byte: u32,
    pub part: ImportPart,
    pub number: u32,
}

/// The fields after a kind.
pub(crate) fn parts_of(kind: u32) -> &'static [ImportPart]
    requires from { 1 ≤ kind }
    requires to { kind ≤ 9 }
    ensures { result.now ≡ parts_of kind }
{
    match kind {
        1 => &[ImportPart::Namespace],
        2 => &[ImportPart::Assembly, ImportPart::Namespace],
        3 => &[ImportPart::Target],
        5 => &[ImportPart::Alias],
        6 => &[ImportPart::Alias, ImportPart::Assembly],
        8 => &[
            ImportPart::Alias,
            ImportPart::Assembly,
            ImportPart::Namespace,
        ],
        9 => &[ImportPart::Alias, ImportPart::Target],
        _ => &[ImportPart::Alias, ImportPart::Namespace],
    }
}
