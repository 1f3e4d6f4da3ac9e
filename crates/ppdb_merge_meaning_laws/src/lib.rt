//! Laws: what moved and joined files say of each method is what the file said that names it; and
//! their entry point, methods, documents and records on rows and documents come from the files.
#![tactic(auto)]

mod laws;

pub use laws::{inputs_keep_meaning, inputs_keep_origins, joined_means, moved_alone_is_sound};
