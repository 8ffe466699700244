//! What is proved of both searches together.

ghost use Rattle.std.specs.Prelude.{◌≡◌};
ghost use Rattle.tree_search.specs.Outcomes.{IsAnswer};

use crate::outcome::Outcome;
use crate::space::Space;

/// Two outcomes for one tree, neither of them spent, are equal where each is what a search
/// promises, whichever search it is. It does nothing; callers that prove something of an outcome
/// learn this from it.
pub fn outcomes_agree<S: Space>(space: &S, one: &Outcome, other: &Outcome)
    ensures { IsAnswer (S.live space.now) (S.height space.now) one.now
        → IsAnswer (S.live space.now) (S.height space.now) other.now → one.now ≡ other.now }
{
    let _ = space;
    let _ = one;
    let _ = other;
}
