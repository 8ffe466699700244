//! What is proved of two runs together.

ghost use Rattle.fux_run.specs.Laws.{CertifiedCantusRunIsAccepted, CertifiedRunIsAccepted};

/// A run of `check` accepts what a run of `certify` wrote of the same exercise and sheet, and so
/// does `checkcantus` with what `certcantus` wrote. It does nothing.
pub fn certified_run_is_accepted()
    ensures settings { CertifiedRunIsAccepted }
    ensures cantus { CertifiedCantusRunIsAccepted }
{}
