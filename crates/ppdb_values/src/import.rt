use ppdb_base::{Bytes, List};
use type_blobs::TypeToken;

/// An import scope (Portable PDB v1.0, "ImportScope Table").
#[derive(Drop)]
pub struct ImportScopeValue {
    /// The row of the import scope around this one, or 0.
    pub parent: u32,
    /// What it imports.
    pub imports: List<ImportValue>,
}

/// What is imported (Portable PDB v1.0, "Imports Blob", kinds 1 to 9).
#[derive(Drop)]
pub enum ImportValue {
    /// Kind 1: the types of a namespace.
    Namespace {
        namespace: Bytes,
    },
    /// Kind 2: the types of a namespace of an assembly, by its row of AssemblyRef.
    AssemblyNamespace {
        assembly: u32,
        namespace: Bytes,
    },
    /// Kind 3: the members of a type.
    Target {
        target: TypeToken,
    },
    /// Kind 4: an XML namespace by a prefix.
    Xml {
        alias: Bytes,
        namespace: Bytes,
    },
    /// Kind 5: an alias of an assembly that an outer scope defines.
    Alias {
        alias: Bytes,
    },
    /// Kind 6: an alias of an assembly.
    AssemblyAlias {
        alias: Bytes,
        assembly: u32,
    },
    /// Kind 7: an alias of a namespace.
    NamespaceAlias {
        alias: Bytes,
        namespace: Bytes,
    },
    /// Kind 8: an alias of a namespace of an assembly.
    AssemblyNamespaceAlias {
        alias: Bytes,
        assembly: u32,
        namespace: Bytes,
    },
    /// Kind 9: an alias of a type.
    TargetAlias {
        alias: Bytes,
        target: TypeToken,
    },
}
