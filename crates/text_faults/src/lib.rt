//! Every fault of a text at fault, with the line where it stands and what would be right there.
#![tactic(auto)]

mod below;
mod explained;
mod found;
mod given;
mod head_lines;
mod hints;
mod item_hints;
mod known;
mod marked_lines;
mod range;
mod relax;
mod shown;
mod sing;
mod slots;
mod word_tests;
mod written;

pub use below::faults_from;
pub use explained::explained_faults;
pub use found::FoundFault;
