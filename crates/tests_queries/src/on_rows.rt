// The custom records that stand on rows.
ghost use Rattle.std.specs.Prelude.{◌≡◌, ◌<◌};

use crate::files::PARENTS;
use crate::opening::open;
use ppdb_base::{CounterPermit, Steps};
use ppdb_queries::{Run, customs_of};
use ppdb_tables::{Parent, coded_parent};
use ppdb_verify::Verified;
use std::marker::Brand;
use std::sync::ledger::{Blank, Ledger};
use std::test::Fail;
use worked_files::PROGRAM;

/// The run of the custom records on a row, where it may have some.
fn run_on<L: Ledger>(
    file: &Verified<'_>,
    table: u8,
    row: u32,
    steps: &mut Steps<L>,
) -> Option<Run> {
    let parent = Parent { table, row };
    if row == 0 || table >= 64 || file.tables().rows(table) < row {
        return None;
    }
    file.tables().shape();
    coded_parent(parent)?;
    Some(customs_of(file, parent, steps))
}

fn runs_are_in<L: Ledger>(
    rt: &HostRuntime,
    bytes: &[u8],
    rows: &[(u8, u32, Option<Run>)],
    blank: Blank,
) -> Result<bool, Fail>
    requires { (blank.name ≡ L.name) × (blank.parts ≡ L.parts) × (0 < L.parts) }
{
    let mut steps = Steps::<L>::new(CounterPermit::new(rt), blank);
    let Some(file) = open(rt.alloc(), bytes, &mut steps) else {
        return Err(Fail::from("not valid"));
    };
    for (table, row, run) in rows {
        if run_on(&file, *table, *row, &mut steps) != *run {
            return Ok(false);
        }
    }
    Ok(true)
}

/// Whether each of some rows has its run.
fn runs_are(rt: &HostRuntime, bytes: &[u8], rows: &[(u8, u32, Option<Run>)]) -> Result<bool, Fail> {
    runs_are_in::<Brand>(rt, bytes, rows, Blank::new(1))
}

const fn run(first: u32, end: u32) -> Option<Run> {
    Some(Run { first, end })
}

/// The parents by their tags.
const TAGS: [u8; 27] = [
    0x06, 0x04, 0x01, 0x02, 0x08, 0x09, 0x0a, 0x00, 0x0e, 0x17, 0x14, 0x11, 0x1a, 0x1b, 0x20, 0x23,
    0x26, 0x27, 0x28, 0x2a, 0x2c, 0x2b, 0x30, 0x32, 0x33, 0x34, 0x35,
];

#[test]
fn records_stand_on_their_parents(rt: HostRuntime) -> Result<(), Fail> {
    let mut rows = [(0, 1, None); 27];
    for (tag, table) in TAGS.iter().enumerate() {
        rows[tag] = (*table, 1, run(tag as u32 + 1, tag as u32 + 2));
    }
    assert!(rt; runs_are(&rt, &PARENTS, &rows)?);
    let rows = [
        (0x00, 1, run(1, 3)),
        (0x06, 4, run(3, 5)),
        (0x06, 1, run(1, 1)),
        (0x06, 5, run(5, 5)),
        (0x37, 1, None),
    ];
    assert!(rt; runs_are(&rt, &PROGRAM, &rows)?);
    Ok(())
}
