// Faults at cells, and the items that cells name.
ghost use Rattle.std.specs.Prelude.{◌≡◌, ◌<◌, ◌^◌, ◌↔◌, None, IsTrue};
ghost use Rattle.ppdb_base.specs.Place.{cell};
ghost use Rattle.ppdb_heaps.specs.Heaps.{blob_at};
ghost use Rattle.ppdb_tables.specs.RawTables.{count, HasShape};
ghost use Rattle.ppdb_tables.specs.RawOf.{raw_of};
ghost use Rattle.ppdb_verify_rules.specs.Blobs.{NamesNoGuid, in_blob};
ghost use Rattle.ppdb_verify_rules.specs.Earlier.{NamesNoRow};

use ppdb_base::{BlobFault, Code, Fault, Place};
use ppdb_tables::Tables;

/// The fault of a cell.
pub(crate) fn fault(code: Code, table: u8, row: u32, column: u8) -> Fault
    ensures { result ≡ record { code = code; place = cell table row column } }
{
    let place = Place {
        part: 5,
        table,
        row,
        column,
        byte: 0,
    };
    Fault { code, place }
}

/// The fault of a blob that a cell names.
pub(crate) fn fault_within(inside: BlobFault, table: u8, row: u32, column: u8) -> Fault
    ensures { result ≡ record { code = inside.code; place = in_blob table row column inside.byte } }
{
    let place = Place {
        part: 5,
        table,
        row,
        column,
        byte: inside.byte,
    };
    Fault {
        code: inside.code,
        place,
    }
}

/// How many rows a table has.
pub(crate) fn row_count(tables: &Tables<'_>, table: u8) -> u32
    requires { table < 64 }
    ensures count { result ≡ count (raw_of tables.now) table }
    ensures few { result < 2 ^ 24 }
    ensures all { HasShape (raw_of tables.now) }
{
    let _ = tables.shape();
    tables.rows(table)
}

/// Whether a number names no row of a table, where the least that is allowed is 0 or 1.
pub(crate) fn names_no_row(tables: &Tables<'_>, table: u8, least: u32, number: u32) -> bool
    requires { table < 64 }
    ensures { IsTrue result ↔ NamesNoRow least (count (raw_of tables.now) table) number }
{
    number < least || tables.rows(table) < number
}

/// Whether a blob is not there.
pub(crate) fn names_no_blob(tables: &Tables<'_>, index: u32) -> bool
    ensures { IsTrue result ↔ (blob_at (raw_of tables.now).blobs index ≡ None) }
{
    tables.blobs().get(index).is_none()
}

/// Whether a GUID is not there, where the least number that is allowed is 0 or 1.
pub(crate) fn names_no_guid(tables: &Tables<'_>, least: u32, number: u32) -> bool
    ensures { IsTrue result ↔ NamesNoGuid least (raw_of tables.now).guids number }
{
    number < least || (number != 0 && tables.guids().get(number).is_none())
}
