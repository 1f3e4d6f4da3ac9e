//! A file as its bytes: where its parts stand.
#![tactic(auto)]

mod cells;
mod counts;
mod laws;
mod numbers;
mod pdb;
mod prefix;
mod root;
mod rows;
mod stream;

pub use laws::worked_files_are_laid_out;
pub use prefix::{file_len, prefix_len, put_prefix};
pub use rows::{HeapLens, Rows};
pub use stream::all_rows_fit;
