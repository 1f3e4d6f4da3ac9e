ghost use Rattle.std.specs.Prelude.{◌≡◌, ◌<◌, ◌^◌};
ghost use Rattle.blob_grammar.specs.Reader.{code_of};

use cli_ints::IntFault;
use ppdb_base::{BlobFault, Code};

/// The fault of a number that is not there, at its place.
pub fn fault_at(fault: IntFault, at: usize) -> BlobFault
    requires { at < 2 ^ 32 }
    ensures { result ≡ record { code = code_of fault; byte = at } }
{
    let code = match fault {
        IntFault::End => Code::BlobEnd,
        IntFault::Form => Code::IntegerForm,
    };
    BlobFault {
        code,
        byte: at as u32,
    }
}

/// The fault of a field that is out of range, at its place.
pub fn out_of_range(at: usize) -> BlobFault
    requires { at < 2 ^ 32 }
    ensures { result ≡ record { code = Code.ValueRange; byte = at } }
{
    BlobFault {
        code: Code::ValueRange,
        byte: at as u32,
    }
}
