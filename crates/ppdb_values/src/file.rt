use crate::custom::CustomValue;
use crate::import::ImportScopeValue;
use crate::scope::ScopeValue;
use ppdb_base::{Bytes, List};
use ppdb_tables::MachineRow;
use sequence_points::Point;

/// What a debug file says (Portable PDB v1.0).
#[derive(Drop)]
pub struct FileValue {
    /// The identity, as its bytes stand in the file.
    pub id: [u8; 20],
    /// The row of MethodDef that is the entry point, or 0.
    pub entry: u32,
    /// The rows of each table of the type system; from 2d on they are 0.
    pub rows: [u32; 64],
    /// The documents, by their rows from 1.
    pub documents: List<DocumentValue>,
    /// The methods that have points, ascending.
    pub methods: List<MethodValue>,
    /// The local scopes, by their rows from 1.
    pub scopes: List<ScopeValue>,
    /// The import scopes, by their rows from 1.
    pub imports: List<ImportScopeValue>,
    /// The state machines, ascending by MoveNext method.
    pub machines: List<MachineRow>,
    /// The custom debug information, ascending by coded parent.
    pub customs: List<CustomValue>,
}

/// A document (Portable PDB v1.0, "Document Table").
#[derive(Drop)]
pub struct DocumentValue {
    /// The name, its parts joined.
    pub name: Bytes,
    /// The GUID of the hash algorithm, as its bytes stand in the heap.
    pub algorithm: Option<[u8; 16]>,
    /// The hash; empty where there is none.
    pub hash: Bytes,
    /// The GUID of the language, as its bytes stand in the heap.
    pub language: Option<[u8; 16]>,
}

/// The sequence points of a method that has some (Portable PDB v1.0, "Sequence Points Blob").
#[derive(Drop)]
pub struct MethodValue {
    /// The row of MethodDef.
    pub method: u32,
    /// The row of StandAloneSig of the local variables' signature, or 0.
    pub signature: u32,
    /// The points, ascending by IL offset.
    pub points: List<Point>,
}
