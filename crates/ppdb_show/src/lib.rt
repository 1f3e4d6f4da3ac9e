//! The texts of a valid file, as lines of text or as objects of JSON: all its rows, what belongs to
//! an offset of a method, and what belongs to each offset of a list.
#![tactic(auto)]

mod lookup;
mod query;
mod show;

pub use lookup::{put_lookup, put_no_method};
pub use query::{QueryError, put_query, query_text};
pub use show::{put_show, show_json, show_text};
