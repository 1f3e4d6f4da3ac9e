//! The streams of a debug file that hold its identity and its tables: `#Pdb` and `#~`.
#![tactic(auto)]

mod bounds;
mod counts;
mod head;
mod header;
pub mod layouts;
mod numbers;
mod parent;
mod reading;
mod rows;
mod streams;
mod table;
mod tables;

pub use head::{PdbHead, method_token, read_head};
pub use numbers::{
    ASSEMBLY, ASSEMBLY_REF, CUSTOM, DOCUMENT, IMPORT_SCOPE, LOCAL_CONSTANT, LOCAL_SCOPE,
    LOCAL_VARIABLE, METHOD_DEBUG, METHOD_DEF, MODULE, STAND_ALONE_SIG, STATE_MACHINE, TYPE_DEF,
    TYPE_REF, TYPE_SPEC, TYPE_TABLES,
};
pub use parent::{Parent, coded, coded_parent, codes_are_parents, parent_of, tag_of};
pub use reading::read_tables;
pub use rows::{
    ConstantRow, CustomRow, DocumentRow, ImportRow, MachineRow, MethodDebugRow, ScopeRow,
    VariableRow,
};
pub use tables::Tables;
