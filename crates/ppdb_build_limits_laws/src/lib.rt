//! Laws: a file that is read passes no limit on rows and points, no list of it begins past two
//! bytes, and of a valid file's limits only those on its bytes are left.
#![tactic(auto)]

mod laws;

pub use laws::{files_pass_no_early_limit, files_pass_no_list_limit, valid_files_meet_late_limits};
