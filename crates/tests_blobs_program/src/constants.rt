// The constants.
use crate::counts::Counts;
use crate::imports::type_limits;
use crate::stop::{Cell, Stop};
use blob_grammar::fault_after;
use ppdb_base::{BlobFault, Steps};
use ppdb_tables::{LOCAL_CONSTANT, Tables};
use std::sync::ledger::Ledger;
use type_blobs::ConstantCursor;

/// Reads the signature of each constant.
pub fn read_constants<L: Ledger>(
    tables: &Tables<'_>,
    counts: &mut Counts,
    steps: &mut Steps<L>,
) -> Result<(), Stop> {
    let limits = type_limits(tables);
    for index in 0..tables.rows(LOCAL_CONSTANT) {
        let row = index + 1;
        let cell = Cell {
            table: LOCAL_CONSTANT,
            row,
        };
        let cells = tables.constant(row, steps);
        let Some(blob) = tables.blobs().get(cells.signature) else {
            return Err(Stop::Absent(cell));
        };
        if let Err(fault) = read_constant(ConstantCursor::new(blob, limits)) {
            return Err(Stop::Blob(cell, fault));
        }
        counts.constants = counts.constants.saturating_add(1);
    }
    Ok(())
}

/// Reads the modifiers that a cursor has left, and the body.
fn read_constant(mut cursor: ConstantCursor<'_>) -> Result<(), BlobFault> {
    if let Some(fault) = fault_after(&mut cursor) {
        return Err(fault);
    }
    cursor.body()?;
    Ok(())
}
