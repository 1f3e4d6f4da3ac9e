ghost use Rattle.std.specs.Prelude.{◌≡◌, ◌+◌, ◌-◌, ◌*◌, ◌^◌, ◌<◌, ◌≤◌, length, sum, slice_index};
ghost use Rattle.row_layout.specs.Rows.{cell_in};
ghost use Rattle.ppdb_tables.specs.Layouts.{row_in};

use ppdb_base::MAX_FILE_BYTES;
use row_layout::RowLayout;

/// The rows of one table, where they stand in the file.
#[derive(Clone, Copy)]
pub struct Table<'a, const N: usize> {
    bytes: &'a [u8],
    count: u32,
    layout: RowLayout<N>,
    ghost whole: { length bytes.now ≡ count * sum layout },
}

impl<'a, const N: usize> Table<'a, N> {
    ghost use Rattle.ppdb_tables.specs.TableOf.{IsTableAt};

    /// The table of so many rows that begins at a place of a stream.
    pub fn at(stream: &'a [u8], place: usize, count: u32, layout: &RowLayout<N>) -> Table<'a, N>
        requires size { length stream.now ≤ MAX_FILE_BYTES }
        requires inside { place + count * sum layout.now ≤ length stream.now }
        ensures { IsTableAt stream.now place count layout.now result }
    {
        let len = count as usize * layout.len();
        Table {
            bytes: &stream[place..place + len],
            count,
            layout: *layout,
        }
    }

    /// The bytes of a row.
    pub fn row(&self, row: u32) -> &'a [u8]
        requires there { (1 ≤ row) × (row ≤ self.now.count) }
        ensures bytes { result.now ≡ row_in self.now.layout self.now.bytes.now (row - 1) }
        ensures whole { length result.now ≡ sum self.now.layout }
    {
        let len = self.layout.len();
        let start = (row as usize - 1) * len;
        &self.bytes[start..start + len]
    }

    /// The number in a cell of a row.
    pub fn cell(&self, row: &[u8], column: usize) -> u32
        requires whole { length row.now ≡ sum self.now.layout }
        requires there { column < N }
        ensures number { result ≡ cell_in self.now.layout row.now column }
        ensures fits { result < 256 ^ slice_index self.now.layout column }
    {
        self.layout.cell(row, column)
    }
}
