//! Worked cases of what is open behind a column, with answers that were worked out by hand.

mod cadences;
mod dissonances;
mod parallels;
mod runs;
mod shapes;
mod steps;
mod suspensions;
mod told;
mod turnings;
