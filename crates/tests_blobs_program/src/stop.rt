// Why a file was not read to its end.
use crate::text::{put_number, put_table};
use ppdb_base::{BlobFault, Fault, Memory, Sink, WriteError};

/// The cell of a table that names a blob.
#[derive(Clone, Copy)]
pub struct Cell {
    /// The number of the table.
    pub table: u8,
    /// The row from 1.
    pub row: u32,
}

/// Why a file was not read to its end.
#[derive(Clone, Copy)]
pub enum Stop {
    /// The words are not the name of a file.
    Usage,
    /// The file was not read, or it has more than 134217728 bytes.
    Unread,
    /// There was no memory left.
    Memory,
    /// The root, the head or the tables are at fault.
    Fault(Fault),
    /// The row names a blob or a GUID that is not there, or a document that is not there.
    Absent(Cell),
    /// The row's blob is at fault.
    Blob(Cell, BlobFault),
    /// The file is laid out again as another.
    Differs,
}

impl From<Memory> for Stop {
    fn from(_: Memory) -> Self {
        Stop::Memory
    }
}

impl From<WriteError> for Stop {
    fn from(_: WriteError) -> Self {
        Stop::Memory
    }
}

impl From<Fault> for Stop {
    fn from(fault: Fault) -> Self {
        Stop::Fault(fault)
    }
}

/// Puts the line of a stop: what, and where.
pub fn put_stop<O: Sink>(out: &mut O, stop: &Stop) -> Result<(), WriteError> {
    match *stop {
        Stop::Usage => out.put(b"usage: tests_blobs_program FILE")?,
        Stop::Unread => out.put(b"the file cannot be read, or it has more than 134217728 bytes")?,
        Stop::Memory => out.put(b"no memory left")?,
        Stop::Fault(fault) => put_fault(out, fault)?,
        Stop::Absent(cell) => put_cell(out, b"nothing is there that is named by", cell)?,
        Stop::Blob(cell, fault) => put_blob_fault(out, cell, fault)?,
        Stop::Differs => out.put(b"the file that is laid out again is read as another")?,
    }
    out.put(b"\n")
}

fn put_fault<O: Sink>(out: &mut O, fault: Fault) -> Result<(), WriteError> {
    put_number(out, b"F", u32::from(fault.code.number()))?;
    put_number(out, b" part ", u32::from(fault.place.part))?;
    put_table(out, b" table ", fault.place.table)?;
    put_number(out, b" row ", fault.place.row)?;
    put_number(out, b" column ", u32::from(fault.place.column))?;
    put_number(out, b" byte ", fault.place.byte)
}

fn put_cell<O: Sink>(out: &mut O, words: &[u8], cell: Cell) -> Result<(), WriteError> {
    out.put(words)?;
    put_table(out, b" table ", cell.table)?;
    put_number(out, b" row ", cell.row)
}

fn put_blob_fault<O: Sink>(out: &mut O, cell: Cell, fault: BlobFault) -> Result<(), WriteError> {
    put_number(out, b"F", u32::from(fault.code.number()))?;
    put_cell(out, b"", cell)?;
    put_number(out, b" byte ", fault.byte)
}
