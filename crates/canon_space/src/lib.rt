//! Canons in two voices as a tree: its live paths are the lists of whole bars that begin a canon,
//! and its leaves the lawful canons.
#![tactic(auto)]

mod bars;
mod canon;
mod costs;
mod node;
mod pairs;
mod reading;
mod score;
mod space;
mod voices;

pub use canon::Canon;
pub use node::CanonNode;
pub use reading::{canon_texts_are_read, read_canon};
pub use score::canon_score;
pub use space::CanonSpace;
