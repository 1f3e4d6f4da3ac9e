// Documents whose breaks are asked for.
ghost use Rattle.std.specs.Prelude.{◌≡◌, ◌<◌};

use crate::files::SPANNING;
use crate::opening::open;
use break_lines::{NoDocument, breaks_at};
use ppdb_base::{CounterPermit, Steps};
use std::marker::Brand;
use std::sync::ledger::{Blank, Ledger};
use std::test::Fail;

/// Whether a file has no such document.
fn is_refused_in<L: Ledger>(
    rt: &HostRuntime,
    bytes: &[u8],
    document: u32,
    blank: Blank,
) -> Result<bool, Fail>
    requires { (blank.name ≡ L.name) × (blank.parts ≡ L.parts) × (0 < L.parts) }
{
    let mut steps = Steps::<L>::new(CounterPermit::new(rt), blank);
    let Some(file) = open(rt.alloc(), bytes, &mut steps) else {
        return Err(Fail::from("not valid"));
    };
    match breaks_at(&file, document, 1) {
        Ok(_) => Ok(false),
        Err(NoDocument) => Ok(true),
    }
}

/// Whether a file has no such document.
fn is_refused(rt: &HostRuntime, bytes: &[u8], document: u32) -> Result<bool, Fail> {
    is_refused_in::<Brand>(rt, bytes, document, Blank::new(1))
}

#[test]
fn documents_that_are_not_there(rt: HostRuntime) -> Result<(), Fail> {
    for (document, refused) in [(0, true), (1, false), (3, false), (4, true)] {
        assert_eq!(rt; is_refused(&rt, &SPANNING, document)?, refused);
    }
    Ok(())
}
