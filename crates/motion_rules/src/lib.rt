//! Rules and tolls of motion: S10, S16 to S18, Q11, Q12 and Q14.
#![tactic(auto)]

mod afterbeats;
mod book;
mod clear;
mod inner_voices;
mod motion;
mod rows;
mod runs;
mod ways;

pub use afterbeats::{breaks_afterbeat, differ, stays_near};
pub use book::book_is_lawful;
pub use clear::are_clear;
pub use inner_voices::inner_moves;
pub use motion::Motion;
pub use rows::{breaks, cost, cross, move_in_parallel};
pub use runs::{imperfect_runs, sound_imperfect};
