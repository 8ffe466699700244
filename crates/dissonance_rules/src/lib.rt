//! Rules and tolls of dissonance and of unisons: S11, S14, S15, S19, S20, S21, S27, S28, Q1 and Q2.
#![tactic(auto)]

mod apart;
mod book;
mod clashes;
mod closing;
mod dissonance;
mod held;
mod late;
mod ligatures;
mod mixed;
mod passing;
mod rows;
mod starts;
mod told;

pub use apart::are_apart;
pub use book::book_is_lawful;
pub use clashes::{breaks_clash, is_clash_settled};
pub use dissonance::Dissonance;
pub use ligatures::{is_bad_suspension, is_suspended, is_unprepared, resolves};
pub use passing::{falls_by_step, is_cambiata, is_good, is_neighbor, is_passing, starts_in_clash};
pub use rows::{breaks, clash_at_start, cost};
pub use starts::LatestStarts;
