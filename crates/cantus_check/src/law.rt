//! What a valid certificate of a cantus shows.

ghost use Rattle.std.specs.Prelude.{ℕ, List};
ghost use Rattle.cert_text.specs.declared.claim.Claim.{Claim};
ghost use Rattle.cantus_check.specs.Certificates.{Holds, IsCantusCertificate};
ghost use Rattle.cantus_check.specs.Claims.{pool_of};
ghost use Rattle.cantus_check.specs.Pools.{ListsPool};
ghost use Rattle.cantus_check.specs.Writer.{claims_of};

use crate::case::CantusCase;
use cantus_space::CantusSpace;

/// What the head of a valid certificate says holds: its cantus is the best one and has its penalty,
/// or no cantus is lawful. It does nothing; callers that prove something about a certificate learn
/// this from it.
pub fn shown_by(case: &CantusCase)
    ensures { (claims : List Claim) → IsCantusCertificate case.now.space case.now.head.best claims
        → Holds case.now.space case.now.head.best }
{
    cert_tree::shown_by(case)
}

/// What the writer's certificate is: of a head that holds, it is valid. It does nothing, as
/// `shown_by`.
pub fn written(case: &CantusCase)
    ensures { Holds case.now.space case.now.head.best → IsCantusCertificate case.now.space
        case.now.head.best (claims_of case.now.space case.now.head.best) }
{
    cert_tree::written(case)
}

/// The pool of each bar, as the claims go through it: exactly its pitches, in reading order. It
/// does nothing, as `shown_by`.
pub fn pools_are_listed(space: &CantusSpace)
    ensures { (bar : ℕ) → ListsPool space.now bar (pool_of space.now bar) }
{
    let _ = space.plan();
}
