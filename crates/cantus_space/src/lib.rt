//! A new cantus as a tree: its live paths are the lists of pitches of their bars' pools that break
//! no rule, and its leaves the lawful cantus. What it pays for beyond the penalties of settings are
//! the prices of a sheet, which are read here; and what a given cantus pays, charge by charge.
#![tactic(auto)]

mod ahead;
mod bill;
mod bill_law;
mod charge;
mod costs;
mod entries;
mod lawful;
mod lines;
mod melody;
mod node;
mod note_charges;
mod notes;
mod path;
mod plan;
mod pools;
mod prices;
mod reading;
mod share;
mod sheet_law;
mod space;
mod whole;

pub use bill::bill_of;
pub use bill_law::cantus_charges_are_whole;
pub use charge::{Bill, CantusCharge, Penalty};
pub use lawful::lawful_penalty;
pub use lines::bill_text;
pub use node::CantusNode;
pub use path::cantus_of;
pub use plan::CantusPlan;
pub use prices::{CantusPrices, GREATEST_PRICE, PricedSheet, no_prices};
pub use reading::read_prices;
pub use sheet_law::without_prices;
pub use space::CantusSpace;
