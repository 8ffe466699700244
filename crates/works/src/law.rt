//! What is proved of two commands together.

ghost use Rattle.works.specs.Accepted.{CertifiedCantusIsAccepted, CertifiedIsAccepted};
ghost use Rattle.works.specs.ReadBack.{BestIsRead, ComposedIsRead, MixedIsRead, NewCantusIsRead};
ghost use Rattle.works.specs.Works.{BestEndsAsComposed, BestIsComposed, MixedBestEndsAsMixed, MixedBestIsMixed};

/// What `compose` and `best` make of the same files is the same, where neither tells that its
/// budget was spent; and `best` tells that only where `compose` with the same budget does. It does
/// nothing, and tells what is proved of the two.
pub fn best_is_composed()
    ensures same { BestIsComposed }
    ensures ends { BestEndsAsComposed }
{}

/// What `mixed` makes of the same files by sharper floors and without them is the same, where
/// neither tells that its budget was spent; and by sharper floors it tells that only where it does
/// without them, with the same budget. It does nothing, and tells what is proved of the two.
pub fn mixed_best_is_mixed()
    ensures same { MixedBestIsMixed }
    ensures ends { MixedBestEndsAsMixed }
{}

/// What `certify` writes, `check` of the same exercise accepts, and tells the penalty that was
/// found or that none is lawful; and so does `checkcantus` with what `certcantus` writes. It does
/// nothing.
pub fn certified_is_accepted()
    ensures settings { CertifiedIsAccepted }
    ensures cantus { CertifiedCantusIsAccepted }
{}

/// What `compose`, `best` and `mixed` write of a best setting is a note text of the exercise with
/// that setting, where it is no longer than a text may be; and what `newcantus` writes has the line
/// of the cantus in such a text, but for the number of its voice. It does nothing.
pub fn written_is_read()
    ensures composed { ComposedIsRead }
    ensures best { BestIsRead }
    ensures mixed { MixedIsRead }
    ensures cantus { NewCantusIsRead }
{}
