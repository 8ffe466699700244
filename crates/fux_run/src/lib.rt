//! Runs the program: the words on the command line, the work that they ask for, and how it ends.
#![tactic(auto)]

mod law;
mod perform;
mod status;
mod telling;
mod top_call;

pub use law::certified_run_is_accepted;
pub use status::Status;
pub use telling::report;
pub use top_call::run;
