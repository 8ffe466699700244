//! A mark.

ghost use Rattle.std.specs.Prelude.{◌≡◌, ◌<◌, ◌++◌, OnOk};
ghost use Rattle.score_marker.specs.Lists.{mark_where};
ghost use Rattle.score_marker.specs.Marks.{mark_at};

use fux_grid::{VoiceSet, place_of};
use fux_pitch::Memory;

/// A broken rule, at a place and for a set of voices.
#[derive(Clone, Copy, Debug, PartialEq, Eq)]
pub struct Mark {
    /// Counted from 1.
    pub bar: u8,
    /// From 0 to 7.
    pub slot: u8,
    /// From 1 to 28 the number of a rule; 31, 32 and 33 stand for K1, K2 and K3, the forms of a
    /// cantus firmus.
    pub rule: u8,
    pub voices: VoiceSet,
}

/// The mark of a break at column `i`.
fn mark_of(i: usize, rule: u8, voices: VoiceSet) -> Mark
    requires { i < 192 }
    ensures { result ≡ mark_at i rule voices.bits }
{
    let place = place_of(i);
    Mark {
        bar: place.bar,
        slot: place.slot,
        rule,
        voices,
    }
}

/// Appends the mark of a rule at column `i` for a set of voices, where the rule is broken.
#[tactic(auto, unfolding(crate::specs::Lists::mark_where))]
pub(crate) fn mark_if(
    broken: bool,
    marks: &mut Vec<Mark>,
    i: usize,
    rule: u8,
    voices: VoiceSet,
) -> Result<(), Memory>
    requires { i < 192 }
    ensures { OnOk result (marks.new.items ≡ marks.old.items ++ mark_where broken i rule
        voices.bits) }
{
    if broken {
        marks.push(mark_of(i, rule, voices))?;
    }
    Ok(())
}
