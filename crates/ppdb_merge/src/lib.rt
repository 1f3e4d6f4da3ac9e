//! Files moved by their maps and joined into one: what is kept of each input, what is reported where inputs do not fit each other, and the
//! value that they make.
#![tactic(auto)]

mod documents;
mod index;
mod joining;
mod laws;
mod links;
mod merger;
mod methods;
mod reading;
mod row_documents;
mod row_index;
mod row_joining;
mod row_links;
mod row_merger;
mod row_reading;
mod row_trace;
mod together;
mod trace;

pub use laws::{added_inputs_fit, worked_merges};
pub use merger::Merger;
pub use ppdb_base::MergeError;
pub use row_merger::RowMerger;
pub use trace::Trace;
