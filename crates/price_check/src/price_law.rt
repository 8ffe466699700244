//! Certificates of the third form, which state prices: what a list of prices says of a prefix, what
//! a valid certificate is, and that what its head says holds.

ghost use Rattle.price_check.specs.Certificates.{ListsGiveFloors, SharpCertificatesHold, SharpFloorsHold, TailsGiveFloors};
ghost use Rattle.price_check.specs.Truths.{TailsTellFirst, TailsTellTruth};

/// A law, and nothing to run: where what is charged is due, no lawful setting that goes on from a
/// prefix costs less than a list's sum of the prefix, nor than the greatest of the sums of all
/// lists; and none goes on where a list has no sum.
pub fn lists_give_floors()
    ensures each { ListsGiveFloors }
    ensures all { SharpFloorsHold }
{}

/// A law, and nothing to run: what is paid of a prefix and its lines cost at least is with its tail
/// its floor, and it has the one where it has the other.
pub fn tails_give_floors()
    ensures { TailsGiveFloors }
{}

/// A law, and nothing to run: what tells, of a prefix's tail, whether a claim is true, or which is
/// the first true one, tells by the tail that lists give it whether the claim is true by the lists,
/// or which is the first. So one judge serves all forms.
pub fn tails_tell_truth()
    ensures truth { TailsTellTruth }
    ensures first { TailsTellFirst }
{}

/// A law, and nothing to run: what the head of a valid certificate says holds. Its setting is the
/// best one and has its penalty, or no setting is lawful.
pub fn shown_by_prices()
    ensures { SharpCertificatesHold }
{}
