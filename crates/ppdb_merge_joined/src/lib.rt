//! Files joined into one, where each custom record stands at its item: what the joined file is,
//! that it is sound, and the value of such a file, in which rows have numbers again.
#![tactic(auto)]

mod documents;
mod joining;
mod keys;
mod laws;
mod placing;
mod renumbering;
mod repeats;
mod sorting;
mod unannotated;

pub use joining::{join, joined_value};
pub use laws::{few_files_have_room, joined_is_sound, one_file_stays, worked_joins};
pub use unannotated::value_of;
