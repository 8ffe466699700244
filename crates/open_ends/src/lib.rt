//! All that is kept of a prefix behind its last column, for what later columns decide: a step after
//! which a rule would be strictly broken in every lawful setting is refused, and what the tolls
//! that are followed cost is told. Each rule that waits is a part in a module of its own.
#![tactic(auto)]

mod asked;
mod bar_lines;
mod both;
mod cadences;
mod ends;
mod keeps;
mod keys;
mod leads;
mod ligatures;
mod notes;
mod pairs;
mod parallels;
mod part;
mod passing;
mod runs;
mod shapes;
mod suspended;
mod suspensions;
mod turns;

pub use both::Both;
pub use cadences::OpenCadences;
pub use ends::{OpenEnds, OpenRules, ends_after, lawful_steps_lead_on};
pub use keeps::{Keeps, Pairs};
pub use keys::mixed;
pub use ligatures::OpenLigature;
pub use notes::{OpenTurns, Way};
pub use parallels::OpenParallels;
pub use part::OpenPart;
pub use passing::OpenPassing;
pub use runs::{OpenRuns, Run, runs_ended};
pub use shapes::OpenShapes;
pub use suspensions::OpenSuspensions;
