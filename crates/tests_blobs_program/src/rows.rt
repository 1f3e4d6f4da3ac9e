// All rows of a file.
use ppdb_base::{List, Memory, Steps};
use ppdb_build_layout::Rows;
use ppdb_tables::{
    CUSTOM, DOCUMENT, IMPORT_SCOPE, LOCAL_CONSTANT, LOCAL_SCOPE, LOCAL_VARIABLE, METHOD_DEBUG,
    STATE_MACHINE, Tables,
};
use std::alloc::Global;
use std::sync::ledger::Ledger;

/// How many rows each table has.
pub fn counts_of(tables: &Tables<'_>) -> [u32; 64] {
    let mut counts = [0; 64];
    for table in 0..64u8 {
        counts[usize::from(table)] = tables.rows(table);
    }
    counts
}

/// Reads the rows of a table into a list.
macro_rules! read_all {
    ($tables:expr, $table:expr, $read:ident, $into:expr, $steps:expr) => {
        for index in 0..$tables.rows($table) {
            $into.push($tables.$read(index + 1, $steps))?;
        }
    };
}

/// No rows.
fn no_rows(alloc: Global) -> Rows {
    Rows {
        documents: List::new(alloc),
        methods: List::new(alloc),
        scopes: List::new(alloc),
        variables: List::new(alloc),
        constants: List::new(alloc),
        imports: List::new(alloc),
        machines: List::new(alloc),
        customs: List::new(alloc),
    }
}

/// Adds the rows of each table.
fn add_rows<L: Ledger>(
    tables: &Tables<'_>,
    rows: &mut Rows,
    steps: &mut Steps<L>,
) -> Result<(), Memory> {
    read_all!(tables, DOCUMENT, document, rows.documents, steps);
    read_all!(tables, METHOD_DEBUG, method_debug, rows.methods, steps);
    read_all!(tables, LOCAL_SCOPE, scope, rows.scopes, steps);
    read_all!(tables, LOCAL_VARIABLE, variable, rows.variables, steps);
    read_all!(tables, LOCAL_CONSTANT, constant, rows.constants, steps);
    read_all!(tables, IMPORT_SCOPE, import, rows.imports, steps);
    read_all!(tables, STATE_MACHINE, machine, rows.machines, steps);
    read_all!(tables, CUSTOM, custom, rows.customs, steps);
    Ok(())
}

/// The rows of each table.
pub fn rows_of<L: Ledger>(
    alloc: Global,
    tables: &Tables<'_>,
    steps: &mut Steps<L>,
) -> Result<Rows, Memory> {
    let mut rows = no_rows(alloc);
    match add_rows(tables, &mut rows, steps) {
        Ok(()) => Ok(rows),
        Err(error) => Err(error),
    }
}

/// Whether two files have the same rows.
pub fn are_same(one: &Rows, other: &Rows) -> bool {
    one.documents.as_slice() == other.documents.as_slice()
        && one.methods.as_slice() == other.methods.as_slice()
        && one.scopes.as_slice() == other.scopes.as_slice()
        && one.variables.as_slice() == other.variables.as_slice()
        && one.constants.as_slice() == other.constants.as_slice()
        && one.imports.as_slice() == other.imports.as_slice()
        && one.machines.as_slice() == other.machines.as_slice()
        && one.customs.as_slice() == other.customs.as_slice()
}
