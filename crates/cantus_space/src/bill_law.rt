//! A law of charges.

ghost use Rattle.cantus_space.specs.Charges.{CantusChargesArePenalty};

/// A law, and nothing to run: what the charges of a cantus cost comes to the penalty by which a new
/// cantus is found.
pub fn cantus_charges_are_whole()
    ensures { CantusChargesArePenalty }
{}
