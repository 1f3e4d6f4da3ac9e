// What is laid out: the rows of a file, and how long its heaps are.
use ppdb_base::List;
use ppdb_tables::{
    ConstantRow, CustomRow, DocumentRow, ImportRow, MachineRow, MethodDebugRow, ScopeRow,
    VariableRow,
};

/// The rows of the debug tables, table by table.
#[derive(Drop)]
pub struct Rows {
    pub documents: List<DocumentRow>,
    pub methods: List<MethodDebugRow>,
    pub scopes: List<ScopeRow>,
    pub variables: List<VariableRow>,
    pub constants: List<ConstantRow>,
    pub imports: List<ImportRow>,
    pub machines: List<MachineRow>,
    pub customs: List<CustomRow>,
}

/// How many bytes the heaps have, with their padding.
#[derive(Clone, Copy, Debug, PartialEq, Eq)]
pub struct HeapLens {
    pub texts: u64,
    pub guids: u64,
    pub blobs: u64,
}
