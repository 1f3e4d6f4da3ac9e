// Where the rows of a table are likely to be.
use crate::entries::RowLine;

/// Where the rows of each table begin in a list that is in order. No clause speaks of it: whoever
/// looks there sees whether the row is there.
#[derive(Clone, Copy)]
pub struct Starts {
    starts: [u32; 45],
}

impl Starts {
    /// Where the rows of each table begin in the empty list.
    pub fn none() -> Starts {
        Starts { starts: [0; 45] }
    }

    /// Where the rows of each table begin in this list.
    pub fn of(rows: &[RowLine]) -> Starts {
        let mut starts = [0; 45];
        for table in 0..45 {
            let start = rows.partition_point(|row| (row.table as usize) < table);
            starts[table] = start.min(0xffff_ffff) as u32;
        }
        Starts { starts }
    }

    /// The index of a row, where all rows of its table up to it have lines.
    pub fn near(&self, table: u8, old: u32) -> usize {
        match self.starts.get(table as usize) {
            Some(start) => (*start as usize)
                .saturating_add(old as usize)
                .saturating_sub(1),
            None => 0,
        }
    }
}
