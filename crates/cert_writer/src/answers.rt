//! How the writing of a certificate of the third form fails.

ghost use Rattle.std.specs.Prelude.{◌≡◌};
ghost use Rattle.cert_writer.specs.Certificates.{web_answer};
ghost use Rattle.cert_writer.specs.declared.answers.PricesWrite.TheVariants.{Memory as no_memory};

use fux_pitch::Memory;
use price_check::WebFault;

/// Why a certificate of the third form isn't written.
#[derive(Clone, Copy, Debug, PartialEq, Eq)]
pub enum PricesWrite {
    /// It could not be written whole.
    WriteFault,
    /// It would have more than 1,073,741,824 bytes.
    TooLong,
    /// Even what a list keeps that keeps nothing beside what always is is too much for a web.
    TooLarge,
    /// There was not enough memory.
    Memory,
}

impl From<Memory> for PricesWrite {
    ghost from_gives = { λ _ answer. answer ≡ no_memory };

    fn from(_: Memory) -> Self {
        PricesWrite::Memory
    }
}

impl From<WebFault> for PricesWrite {
    ghost from_gives = { λ fault answer. answer ≡ web_answer fault };

    fn from(fault: WebFault) -> Self {
        match fault {
            WebFault::TooLarge => PricesWrite::TooLarge,
            WebFault::Memory => PricesWrite::Memory,
        }
    }
}
