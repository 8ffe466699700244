//! Floors of a tree whose steps are charged beforehand, by cases. Paths are mapped to what is kept
//! of them, and that to the spots of a web: any code may make one that passes a check, and the
//! whole web is made unless it is too large. And the sums of paths, exactly: what a path has paid
//! and was charged, with the least sum of what is left behind it, whatever web that was worked in.
#![tactic(auto)]

mod build;
mod case;
mod guide;
mod pricing;
mod search;
mod states;
mod sums;
mod web;
mod whole;

pub use guide::{Place, PricedGuide, Standing, numbers_in};
pub use pricing::{MOST_CASES, Pricing};
pub use search::{search_unpriced, search_web, try_web, web_of};
pub use states::{State, WebFault};
pub use sums::PathSums;
pub use web::{Edge, MOST_COST, MOST_LABELS, Spot, Web};
pub use whole::whole_web;
