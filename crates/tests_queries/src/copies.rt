// A verified file is a view of its bytes, which can be copied.
ghost use Rattle.std.specs.Prelude.{◌≡◌, ◌<◌};

use ppdb_base::{CounterPermit, Steps};
use ppdb_verify::verify;
use std::marker::Brand;
use std::sync::ledger::{Blank, Ledger};
use worked_files::SMALL;

/// Takes a value of a type that is copied by plain assignment, and no other.
fn is_copied<T: Copy>(_value: &T) {}

/// The entry point that the verified file of these bytes says.
fn entry<L: Ledger>(rt: &HostRuntime, bytes: &[u8], blank: Blank) -> Option<u32>
    requires { (blank.name ≡ L.name) × (blank.parts ≡ L.parts) × (0 < L.parts) }
{
    if bytes.len() > 134_217_728 {
        return None;
    }
    let mut steps = Steps::<L>::new(CounterPermit::new(rt), blank);
    match verify(rt.alloc(), bytes, &mut steps) {
        Ok(file) => {
            is_copied(&file);
            Some(file.head().entry)
        }
        Err(_) => None,
    }
}

#[test]
fn a_verified_file_is_copied(rt: HostRuntime) {
    assert_eq!(rt; entry::<Brand>(&rt, &SMALL, Blank::new(1)), Some(1));
}
