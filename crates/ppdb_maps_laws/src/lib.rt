//! A law: of runs that rise, the search for where an offset goes finds what the relations say.
#![tactic(auto)]

mod laws;

pub use laws::offsets_are_moved;
