// The parts of a file one after the other.
ghost use Rattle.std.specs.Prelude.{◌≤◌, length, OnOk, IfOk, IfErr};
ghost use Rattle.ppdb_base.specs.First.{IsAccepted, IsFirst};
ghost use Rattle.ppdb_verify_rules.specs.Errors.{FaultIs};
ghost use Rattle.ppdb_verify.specs.Files.{FileFaults, IsRawOf};
ghost use Rattle.ppdb_verify.specs.Views.{raw_file};

use crate::judge::judge_all;
use crate::verified::Verified;
use metadata_root::read_root;
use ppdb_base::{MAX_FILE_BYTES, Steps};
use ppdb_tables::{read_head, read_tables};
use ppdb_verify_rules::VerifyError;
use std::alloc::Global;
use std::sync::ledger::Ledger;

/// Verifies a file.
///
/// # Errors
///
/// The first fault of the file, F1 to F40, or that there was no memory left.
pub fn verify<'a, L: Ledger>(
    alloc: Global,
    bytes: &'a [u8],
    steps: &mut Steps<L>,
) -> Result<Verified<'a>, VerifyError>
    requires { length bytes.now ≤ MAX_FILE_BYTES }
    ensures accepted { OnOk result (IsAccepted (FileFaults bytes.now)) }
    ensures file { IfOk result (λ file. IsRawOf bytes.now (raw_file file)) }
    ensures first { IfErr result (FaultIs (IsFirst (FileFaults bytes.now))) }
{
    let root = match read_root(bytes) {
        Ok(root) => root,
        Err(fault) => return Err(VerifyError::Fault(fault)),
    };
    let head = match read_head(&root) {
        Ok(head) => head,
        Err(fault) => return Err(VerifyError::Fault(fault)),
    };
    let tables = match read_tables(&root, &head) {
        Ok(tables) => tables,
        Err(fault) => return Err(VerifyError::Fault(fault)),
    };
    match judge_all(alloc, &tables, steps) {
        Ok(()) => Ok(Verified { head, tables }),
        Err(error) => Err(error),
    }
}
