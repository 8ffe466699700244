//! Why a certificate's file is not read on.

ghost use Rattle.std.specs.Prelude.{◌≡◌};
ghost use Rattle.cert_text.specs.declared.answers.CertFault.TheVariants.{Memory as memory};
ghost use Rattle.cert_file.specs.declared.fault.ReadFault.TheVariants.{Text as text, Unreadable as unreadable};

use cert_text::CertFault;
use fux_port::Failed;
use std::alloc::AllocError;

/// Why a certificate's file is not read on.
#[derive(Clone, Copy, Debug, PartialEq, Eq)]
pub enum ReadFault {
    /// A read failed, or no file has the name.
    Unreadable,
    /// The bytes are no certificate's, or there was not enough memory.
    Text(CertFault),
}

impl From<Failed> for ReadFault {
    ghost from_gives = { λ _ fault. fault ≡ unreadable };

    fn from(_: Failed) -> Self {
        ReadFault::Unreadable
    }
}

impl From<CertFault> for ReadFault {
    ghost from_gives = { λ fault found. found ≡ text fault };

    fn from(fault: CertFault) -> Self {
        ReadFault::Text(fault)
    }
}

impl From<AllocError> for ReadFault {
    ghost from_gives = { λ _ fault. fault ≡ text memory };

    fn from(_: AllocError) -> Self {
        ReadFault::Text(CertFault::Memory)
    }
}
