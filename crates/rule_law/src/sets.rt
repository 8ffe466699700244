//! Sets of rules and of voices.

ghost use Rattle.std.specs.Prelude.{◌≡◌, ◌==◌, ◌||◌, ◌&&◌, ◌<◌, ℕ, length};
ghost use Rattle.std.specs.List.{find};
ghost use Rattle.rule_law.specs.Voices as voices_words;
ghost use Rattle.rule_law.specs.Voices.{has_rule};

use fux_grid::{Exercise, VoiceSet};

/// A set of rules: bit r is rule r.
#[derive(Clone, Copy, Debug, PartialEq, Eq)]
pub struct RuleSet {
    pub bits: u32,
}

impl RuleSet {
    /// The set without rules.
    pub const EMPTY: RuleSet = RuleSet { bits: 0 };

    /// Whether a rule is in the set.
    #[inline]
    pub fn has(self, rule: u8) -> bool
        ensures { result ≡ has_rule self.bits rule }
    {
        let bits = self.bits;
        if rule >= 32 {
            return false;
        }
        (bits >> rule) & 1 == 1
    }

    /// The first of these rules that is in the set.
    pub fn first_of(self, rules: &[u8]) -> Option<u8>
        ensures { result ≡ find (has_rule self.bits) rules.now }
    {
        for rule in rules {
            if self.has(*rule) {
                return Some(*rule);
            }
        }
        None
    }

    /// The set with a rule added, where `on` is true.
    #[inline]
    pub fn with(self, rule: u8, on: bool) -> RuleSet
        requires { rule < 32 }
        ensures { (r : ℕ) → has_rule result.bits r ≡ (has_rule self.bits r || (on && r == rule)) }
    {
        if on {
            return RuleSet {
                bits: self.bits | 1 << rule,
            };
        }
        self
    }
}

/// The one voice of a set.
#[inline]
pub fn voice_of(voices: VoiceSet) -> Option<u8>
    ensures { result ≡ voices_words.voice_of voices.bits }
{
    match voices.bits {
        1 => Some(0),
        2 => Some(1),
        4 => Some(2),
        8 => Some(3),
        _ => None,
    }
}

/// The two voices of a set, the lower first.
#[inline]
pub fn pair_of(voices: VoiceSet) -> Option<(u8, u8)>
    ensures { result ≡ voices_words.pair_of voices.bits }
{
    match voices.bits {
        3 => Some((0, 1)),
        5 => Some((0, 2)),
        9 => Some((0, 3)),
        6 => Some((1, 2)),
        10 => Some((1, 3)),
        12 => Some((2, 3)),
        _ => None,
    }
}

/// The pairs of four voices, the lower voice first.
const VOICE_PAIRS: [(u8, u8); 6] = [(0, 1), (0, 2), (0, 3), (1, 2), (1, 3), (2, 3)];

/// The pairs of four voices, the lower voice first: a pair of which an exercise lacks a voice is
/// among them.
#[inline]
pub fn voice_pairs() -> &'static [(u8, u8)]
    ensures value { result.now ≡ voices_words.voice_pairs }
    ensures six { length result.now ≡ 6 }
{
    &VOICE_PAIRS
}

/// Whether a voice is free: it isn't the cantus.
#[inline]
pub fn is_free(ex: &Exercise, v: u8) -> bool
    ensures { result ≡ voices_words.is_free ex.now v }
{
    v != ex.cantus_voice
}
