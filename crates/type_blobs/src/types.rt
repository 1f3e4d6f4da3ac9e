ghost use Rattle.std.specs.Prelude.{◌≡◌, ◌≤◌, ◌<◌, ◌^◌, ◌+◌, length, IfOk};
ghost use Rattle.type_blobs.specs.Types.{is_type, token_of};
ghost use Rattle.type_blobs.specs.Numbers.{number_at};

use blob_grammar::{is_row, out_of_range, unsigned_field};
use ppdb_base::BlobFault;

/// A row of TypeDef (02), TypeRef (01) or TypeSpec (1b).
#[derive(Clone, Copy, Debug, PartialEq, Eq)]
pub struct TypeToken {
    /// The table's number.
    pub table: u8,
    /// The row from 1.
    pub row: u32,
}

/// How many rows the tables have that a signature or an import names.
#[derive(Clone, Copy, Debug, PartialEq, Eq)]
pub struct TypeLimits {
    pub type_refs: u32,
    pub type_defs: u32,
    pub type_specs: u32,
    pub assembly_refs: u32,
}

/// A custom modifier of a constant's type (ECMA-335 II.23.2.7).
#[derive(Clone, Copy, Debug, PartialEq, Eq)]
pub struct Modifier {
    /// Whether a reader must know the modifier.
    pub required: bool,
    /// The modifier's type.
    pub target: TypeToken,
}

/// Whether the number names a type that is there.
pub fn is_type(limits: TypeLimits, number: u32) -> bool
    ensures { result ≡ is_type limits number }
{
    let row = number / 4;
    match number % 4 {
        0 => is_row(limits.type_defs, row),
        1 => is_row(limits.type_refs, row),
        2 => is_row(limits.type_specs, row),
        _ => false,
    }
}

/// The type that a number names.
pub fn token_of(number: u32) -> TypeToken
    ensures { result ≡ token_of number }
{
    let table = match number % 4 {
        0 => 0x02,
        1 => 0x01,
        _ => 0x1b,
    };
    TypeToken {
        table,
        row: number / 4,
    }
}

/// The type at a place of a blob, and the place after it.
pub(crate) fn type_at(
    blob: &[u8],
    limits: TypeLimits,
    at: usize,
) -> Result<(TypeToken, usize), BlobFault>
    requires within { at ≤ length blob.now }
    requires short { length blob.now < 2 ^ 32 }
    ensures found { result ≡ number_at (is_type limits) token_of blob.now at }
    ensures within { IfOk result (λ x. x.1 ≤ length blob.now) }
{
    let (number, len) = unsigned_field(blob, at)?;
    if is_type(limits, number) {
        Ok((token_of(number), at + len))
    } else {
        Err(out_of_range(at))
    }
}
