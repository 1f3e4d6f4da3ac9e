use custom_info::{AsyncStep, Slot};
use ppdb_base::{Bytes, List};
use ppdb_tables::Parent;

/// A record of custom debug information (Portable PDB v1.0, "CustomDebugInformation Table").
#[derive(Drop)]
pub struct CustomValue {
    /// The row that it belongs to.
    pub parent: Parent,
    /// The GUID of its kind, as its bytes stand in the heap.
    pub kind: [u8; 16],
    /// What it says.
    pub value: CustomBody,
}

/// What a record of custom debug information says, by its kind.
#[derive(Drop)]
pub enum CustomBody {
    /// Async method stepping: the IL offset of the catch handler, and the steps.
    Async {
        handler: Option<u32>,
        steps: List<AsyncStep>,
    },
    /// State machine hoisted local scopes.
    Hoisted(List<Slot>),
    /// Type definition documents: rows of Document.
    TypeDocuments(List<u32>),
    /// The bytes of a record of any other kind.
    Unread(Bytes),
}
