//! What a lawful cantus is, by its marks.

ghost use Rattle.cantus_space.specs.Cantus.{IsPlan};
ghost use Rattle.score_marker.specs.Unmarked.{LawfulIsUnmarked};

use cantus_space::CantusPlan;

/// A cantus is lawful exactly where it has a pitch of each bar's pool, and no marks in any exercise
/// that has it: S2 and the forms K1 to K3 follow from the pools and S4. It does nothing, and tells
/// what is proved of lawful cantus.
pub fn lawful_is_unmarked(plan: &CantusPlan)
    requires { IsPlan plan.now }
    ensures { LawfulIsUnmarked plan.now }
{
    let _ = plan;
}
