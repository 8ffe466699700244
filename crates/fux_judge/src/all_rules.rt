//! The crates of rules as one. Whatever the judge reads of a rule or a toll, it reads here by its
//! number.

ghost use Rattle.std.specs.Prelude.{◌≡◌};
ghost use Rattle.fux_judge.specs.Rules.{rule_at};

use dissonance_rules::Dissonance;
use doubling_rules::Doubling;
use melody_rules::Melody;
use motion_rules::Motion;
use rhythm_cadence::Rhythm;
use rule_law::{Alone, Both, Form, RuleCrate};

/// All crates of rules.
pub(crate) type AllRules = Both<
    Melody,
    Both<Motion, Both<Dissonance, Both<Rhythm, Alone<Doubling>>>>,
>;

/// Which sets of voices a rule speaks of.
#[inline(always)]
#[tactic(auto, unfolding(crate::specs::Rules::rule_at))]
pub(crate) fn form_of(rule: u8) -> Form
    ensures { result ≡ (rule_at rule).form }
{
    AllRules::form(rule)
}
