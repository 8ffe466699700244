//! What a certificate's file is found to be.

use cert_text::{Accepted, CertFault, Refused};

/// What a certificate's file is found to be, by the first thing that is wrong with it.
#[derive(Clone, Copy, Debug, PartialEq, Eq)]
pub enum Verdict {
    /// The text of a valid certificate, and what that shows.
    Accepted(Accepted),
    /// A claim is refused, counted from 1, or the head as claim 0; or a number or a price that is
    /// stated.
    Claim(Refused),
    /// The bytes aren't a certificate's text.
    Text(CertFault),
}
