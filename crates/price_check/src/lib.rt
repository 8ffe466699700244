//! Certificates of the third form, which state prices: what a list of prices says of a prefix, what
//! a valid certificate is, and that what its head says holds; the text of lists, line by line; the
//! lists that lines state, with the webs in which their numbers are worked; and how claims are
//! judged by the tail that lists give a prefix, or where no entries are stated by that of tables
//! and menus. It knows nothing of the search.
#![tactic(auto)]

mod floors;
mod line;
mod line_law;
mod list_law;
mod lists;
mod price_law;
mod priced_list;
mod reading;
mod sharp_case;
mod stated;
mod tails;
mod words;
mod woven;
mod writing;

pub use floors::{ListFloor, MOST_LISTS};
pub use line::{Before, Keys, PriceLine};
pub use line_law::{lines_are_read, lists_are_read};
pub use list_law::lists_are_fit;
pub use lists::{ListsFault, after, lists_in, put_lists};
pub use price_law::{lists_give_floors, shown_by_prices, tails_give_floors, tails_tell_truth};
pub use priced_list::PricedList;
pub use priced_paths::WebFault;
pub use reading::line_in;
pub use sharp_case::{SharpCase, SharpKnown};
pub use stated::{OwnList, first_high, lists_stated};
pub use tails::MenuTails;
pub use words::price_place;
pub use woven::{list_floors, list_numbers, priced_lists, webs_of};
pub use writing::put_line;
