//! Certificates of a cantus: what one is, and what a valid one shows; the text of its head, read
//! and written. The checker judges claims one by one, as a certificate's file is read, and tells
//! what the file is found to be; it knows nothing of the search. The writer writes for each list of
//! pitches that is owed the first claim that is true of it.
#![tactic(auto)]

mod case;
mod certificate;
mod checker;
mod checking;
mod copy;
mod head;
mod known;
mod law;
mod line;
mod one_verdict;
mod scan;
mod starting;

pub use case::CantusCase;
pub use cert_file::{Checks, Verdict};
pub use cert_text::{Accepted, Refused, Why};
pub use certificate::certify_cantus;
pub use checker::{CantusChecker, CantusOpen};
pub use checking::{CantusFault, check_cantus_file};
pub use head::CantusHead;
pub use known::CantusKnown;
pub use law::{pools_are_listed, shown_by, written};
pub use one_verdict::verdicts_are_one;
