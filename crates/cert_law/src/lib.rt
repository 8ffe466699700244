//! What a certificate is, what a valid one shows, and a case with its tails as a tree of claims.
//!
//! The writer and the checker of certificates both stand on this. It knows nothing of the search.
#![tactic(auto)]

mod alone;
mod case;
mod entries;
mod judged;
mod known;
mod law;
mod soon;
mod tailed;
mod tails;
mod truth;
mod voices_told;

pub use alone::AloneTables;
pub use case::Case;
pub use entries::true_entries_are_low;
pub use judged::Judged;
pub use known::PrefixKnown;
pub use law::{shown_by, weights_are_small, written};
pub use soon::{is_break_told, told_break};
pub use tailed::TailedCase;
pub use tails::Tails;
pub use truth::{first_claim, is_open, is_true};
pub use voices_told::{VoiceTold, VoicesTold};
