//! Search of any tree for its first leaf of least value, under a budget of nodes.
#![tactic(auto)]

mod both;
mod depth;
mod finds;
mod first;
mod front;
mod links;
mod outcome;
mod quest;
mod queue;
mod space;
mod trail;

pub use both::outcomes_agree;
pub use depth::{Spending, search_depth, spend_depth};
pub use first::search_front;
pub use front::search_nth;
pub use outcome::{Numbered, Outcome};
pub use quest::{QuestSpace, search_nth_quest, search_quest};
pub use space::Space;
