// The custom records that are read: async steps and hoisted slots.
ghost use Rattle.std.specs.Prelude.{◌<◌, ◌^◌, length};

use crate::counts::Counts;
use crate::stop::{Cell, Stop};
use blob_grammar::fault_after;
use custom_info::{AsyncCursor, Kind, Marks, SlotCursor, kind_of};
use ppdb_base::{BlobFault, Steps};
use ppdb_tables::{CUSTOM, CustomRow, METHOD_DEF, Tables};
use std::alloc::Global;
use std::sync::ledger::Ledger;

/// Reads the value of each custom record that has async steps or hoisted slots.
pub fn read_customs<L: Ledger>(
    alloc: Global,
    tables: &Tables<'_>,
    counts: &mut Counts,
    steps: &mut Steps<L>,
) -> Result<(), Stop> {
    let marks = Marks::new(alloc);
    for index in 0..tables.rows(CUSTOM) {
        let row = index + 1;
        let cells = tables.custom(row, steps);
        read_custom(tables, &marks, Cell { table: CUSTOM, row }, cells, counts)?;
    }
    Ok(())
}

/// Reads the value of a custom record, where it has async steps or hoisted slots.
fn read_custom(
    tables: &Tables<'_>,
    marks: &Marks,
    cell: Cell,
    cells: CustomRow,
    counts: &mut Counts,
) -> Result<(), Stop> {
    let Some(guid) = tables.guids().get(cells.kind) else {
        return Err(Stop::Absent(cell));
    };
    let Some(blob) = tables.blobs().get(cells.value) else {
        return Err(Stop::Absent(cell));
    };
    let fault = match kind_of(&guid, marks) {
        Kind::Async => {
            counts.steps = counts.steps.saturating_add(1);
            steps_fault(blob, tables.rows(METHOD_DEF))
        }
        Kind::Hoisted => {
            counts.slots = counts.slots.saturating_add(1);
            fault_after(&mut SlotCursor::new(blob))
        }
        _ => None,
    };
    match fault {
        None => Ok(()),
        Some(fault) => Err(Stop::Blob(cell, fault)),
    }
}

/// The fault of a blob of async steps, None where it is whole.
fn steps_fault(blob: &[u8], methods: u32) -> Option<BlobFault>
    requires { length blob.now < 2 ^ 32 }
{
    match AsyncCursor::new(blob, methods) {
        Ok(mut cursor) => fault_after(&mut cursor),
        Err(fault) => Some(fault),
    }
}
