/// A row of Document, table 30 (Portable PDB v1.0, "Document Table").
#[derive(Clone, Copy, Debug, PartialEq, Eq)]
pub struct DocumentRow {
    /// The index of the name's blob.
    pub name: u32,
    /// The number of the hash algorithm's GUID, or 0.
    pub algorithm: u32,
    /// The index of the hash's blob.
    pub hash: u32,
    /// The number of the language's GUID, or 0.
    pub language: u32,
}

/// A row of MethodDebugInformation, table 31 (Portable PDB v1.0, "MethodDebugInformation Table").
#[derive(Clone, Copy, Debug, PartialEq, Eq)]
pub struct MethodDebugRow {
    /// The row of Document that the first points have, or 0 where the blob of the points says it.
    pub document: u32,
    /// The index of the sequence points' blob.
    pub points: u32,
}

/// A row of LocalScope, table 32 (Portable PDB v1.0, "LocalScope Table").
#[derive(Clone, Copy, Debug, PartialEq, Eq)]
pub struct ScopeRow {
    /// The row of MethodDef.
    pub method: u32,
    /// The row of ImportScope, or 0.
    pub import: u32,
    /// The first of its rows of LocalVariable.
    pub variables: u32,
    /// The first of its rows of LocalConstant.
    pub constants: u32,
    /// The IL offset at which the scope starts.
    pub start: u32,
    /// How many bytes of IL the scope has.
    pub length: u32,
}

/// A row of LocalVariable, table 33 (Portable PDB v1.0, "LocalVariable Table").
#[derive(Clone, Copy, Debug, PartialEq, Eq)]
pub struct VariableRow {
    /// The attributes; bit 1 hides the variable from the debugger.
    pub attributes: u16,
    /// The variable's place in the local signature.
    pub slot: u16,
    /// The index of the name's text.
    pub name: u32,
}

/// A row of LocalConstant, table 34 (Portable PDB v1.0, "LocalConstant Table").
#[derive(Clone, Copy, Debug, PartialEq, Eq)]
pub struct ConstantRow {
    /// The index of the name's text.
    pub name: u32,
    /// The index of the signature's blob.
    pub signature: u32,
}

/// A row of ImportScope, table 35 (Portable PDB v1.0, "ImportScope Table").
#[derive(Clone, Copy, Debug, PartialEq, Eq)]
pub struct ImportRow {
    /// The row of the import scope around this one, or 0.
    pub parent: u32,
    /// The index of the imports' blob.
    pub imports: u32,
}

/// A row of StateMachineMethod, table 36 (Portable PDB v1.0, "StateMachineMethod Table").
#[derive(Clone, Copy, Debug, PartialEq, Eq)]
pub struct MachineRow {
    /// The row of MethodDef of the MoveNext method.
    pub move_next: u32,
    /// The row of MethodDef of the kickoff method.
    pub kickoff: u32,
}

/// A row of CustomDebugInformation, table 37 (Portable PDB v1.0, "CustomDebugInformation Table").
#[derive(Clone, Copy, Debug, PartialEq, Eq)]
pub struct CustomRow {
    /// The coded parent, as it is stored.
    pub parent: u32,
    /// The number of the kind's GUID.
    pub kind: u32,
    /// The index of the value's blob.
    pub value: u32,
}
