//! Bytes have one verdict.

ghost use Rattle.cantus_check.specs.Answers.{VerdictsAreOne};

/// A law, and nothing to run: no two verdicts are those on one file.
pub fn verdicts_are_one()
    ensures { VerdictsAreOne }
{}
