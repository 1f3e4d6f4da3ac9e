//! Why a run stops before its answer: the status that it ends with, and the line that says so.
#![tactic(auto)]

mod fault;
mod limit;
mod status;
mod stop;
mod unfit;

pub use status::Status;
pub use stop::Stop;
