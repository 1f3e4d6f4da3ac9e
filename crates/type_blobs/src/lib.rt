//! The signatures of local constants and the imports of import scopes (Portable PDB v1.0,
//! "LocalConstantSig Blob" and "Imports Blob"), read and written.
#![tactic(auto)]

mod constant;
mod constant_writer;
mod cursors;
mod import;
mod import_fields;
mod import_part;
mod import_writer;
mod laws;
mod numbers;
mod types;

pub use constant::{Constant, ConstantCursor, is_modifier, is_text, size_of};
pub use constant_writer::constant_into;
pub use import::{Import, ImportCursor};
pub use import_fields::ImportFields;
pub use import_part::{ImportField, ImportPart};
pub use import_writer::{ImportNumbers, import_into};
pub use laws::{
    constants_are_read_once, import_fields_are, imports_are_read_once, written_constant_is_read,
    written_imports_are_read,
};
pub use numbers::number_of;
pub use types::{Modifier, TypeLimits, TypeToken, is_type, token_of};
