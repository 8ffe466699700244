//! What tolls weigh, and what breaks of rules cost.
#![tactic(auto)]

mod entries;
mod fault;
mod price;
mod reading;
mod share;
mod sheet;

pub use entries::{label, number_at};
pub use fault::SheetFault;
pub use price::{Price, price_at};
pub use reading::{document, read_sheet, tables_sheet};
pub use sheet::{GREATEST_TOLL, Sheet, default_sheet, toll_if, weight};
