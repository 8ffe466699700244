//! The checker of certificates: it judges claims one by one, as a certificate's file is read, and
//! tells what the file is found to be; of the second form it judges entries as they come, where
//! none is more than what each column that may come next costs together with the number that is
//! stated for it. It works out no least sum for that, and knows nothing of the search.
#![tactic(auto)]

mod board;
mod bounds;
mod checker;
mod checking;
mod entering;
mod entries;
mod first;
mod head;
mod menus;
mod one;
mod one_verdict;
mod priced;
mod share;
mod sharp_checker;
mod starting;
mod stated;
mod testing;
mod tests;
mod trial;

pub use cert_file::{Checks, ReadFault, Reader, Verdict, verdict_text};
pub use cert_text::{Accepted, Refused, Why};
pub use checker::{Checker, OpenFault};
pub use checking::{CheckFault, check_file};
pub use entries::{Entries, EntryFault};
pub use first::first_failing;
pub use head::is_sound;
pub use one::first_failing_is_one;
pub use one_verdict::verdicts_are_one;
pub use starting::start;
pub use stated::{CloseFault, Stated};
pub use tests::Tests;
