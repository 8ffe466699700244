//! Counterpoint as a tree: its live paths are the live prefixes of an exercise, and its leaves the
//! lawful settings. Beside it stands the tree of an exercise whose free voices have a species each.
#![tactic(auto)]

mod blocks;
mod columns;
mod law;
mod menus;
mod mixed;
mod mixed_space;
mod naming;
mod node;
mod own;
mod space;
mod walk;

pub use blocks::{Blocks, MenuView};
pub use columns::{MenuColumns, score_of};
pub use floor_tables::TableFault;
pub use law::has_floors;
pub use menus::first_too_wide;
pub use mixed::Mixed;
pub use mixed_space::MixedSpace;
pub use naming::{Named, named_species};
pub use node::Node;
pub use space::{SpeciesSpace, undead_numbers};
pub use walk::{limit_of, next_choice};
