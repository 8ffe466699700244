//! The text of certificates: its head, the lines of claims, read from pieces of any size and
//! written, and what is answered about certificates.
#![tactic(auto)]

mod answers;
mod begun;
mod claim;
mod claims;
mod heads;
mod potential;
mod potentials;
mod scan;
mod stated_line;

pub use answers::{Accepted, CertFault, CertHead, CertWrite, Form, Refused, Why};
pub use claim::{Claim, write_claim};
pub use claims::{Claims, Taken};
pub use heads::{head, head_any, heads_are_of_settings};
pub use potential::{Potential, write_potential};
pub use potentials::{Potentials, TakenPotential};
pub use scan::{fixed, next, number_line, pitch};
