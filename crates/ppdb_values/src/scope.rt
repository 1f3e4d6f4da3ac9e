use custom_info::Range;
use ppdb_base::{Bytes, List};
use type_blobs::{Modifier, TypeToken};

/// A local scope, with what it owns (Portable PDB v1.0, "LocalScope Table").
#[derive(Drop)]
pub struct ScopeValue {
    /// The row of MethodDef.
    pub method: u32,
    /// The row of the import scope, or 0.
    pub import: u32,
    /// The IL offsets at which the scope holds.
    pub range: Range,
    /// Its variables; the rows of the variables of all scopes count through.
    pub variables: List<VariableValue>,
    /// Its constants; the rows of the constants of all scopes count through.
    pub constants: List<ConstantValue>,
}

/// A local variable (Portable PDB v1.0, "LocalVariable Table").
#[derive(Drop)]
pub struct VariableValue {
    /// The attributes; bit 1 hides the variable from the debugger.
    pub attributes: u16,
    /// The variable's place in the local signature.
    pub slot: u16,
    /// The name.
    pub name: Bytes,
}

/// A local constant (Portable PDB v1.0, "LocalConstant Table").
#[derive(Drop)]
pub struct ConstantValue {
    /// The name.
    pub name: Bytes,
    /// The custom modifiers of its type.
    pub modifiers: List<Modifier>,
    /// Its type and its value.
    pub body: ConstantBody,
}

/// The type and the value of a constant (Portable PDB v1.0, "LocalConstantSig Blob").
#[derive(Drop)]
pub enum ConstantBody {
    /// A number, a truth value or a character of a primitive type, or a text in UTF-16.
    Primitive {
        /// The type's code (ECMA-335 II.23.1.16).
        code: u8,
        /// The value's bytes.
        value: Bytes,
    },
    /// A value of an enumeration.
    Enumerated {
        /// The code of the underlying type.
        code: u8,
        /// The value's bytes.
        value: Bytes,
        /// The enumeration.
        target: TypeToken,
    },
    /// A value of a class or of a value type.
    General {
        /// 12 for a class, 11 for a value type.
        code: u8,
        /// The type.
        target: TypeToken,
        /// The value's bytes.
        rest: Bytes,
    },
    /// The null reference of type object.
    Object,
}
