//! The runs of bars that two voices begin with thirds, or with sixths, while they may still come to
//! four: Q14 is paid where they do.

ghost use Rattle.std.specs.Prelude.{◌≡◌, ◌≤◌, ◌<◌, ◌^◌};
ghost use Rattle.open_ends.specs.Runs as words;

use crate::keeps::{Keeps, Pairs};
use crate::keys::mixed;
use crate::pairs::{come_to_four, followed_after};
use crate::part::OpenPart;
use fux_grid::{Cell, Exercise};
use penalty_sheet::{Sheet, weight};
use rule_law::begins_bar;

/// How many bars in a row two voices began with thirds, and how many with sixths: the newest bar is
/// the last one, and more than 3 count as 3. None are counted that can't come to four by the last
/// bar.
#[derive(Clone, Copy, Debug, PartialEq, Eq)]
pub struct Run {
    pub thirds: u8,
    pub sixths: u8,
}

impl Run {
    /// No bar.
    pub fn none() -> Run
        ensures { result ≡ words.no_run }
    {
        Run {
            thirds: 0,
            sixths: 0,
        }
    }

    /// A number by which it may be looked up.
    fn key(&self) -> u64
        ensures bound { result < 16 }
    {
        4 * u64::from(self.thirds % 4) + u64::from(self.sixths % 4)
    }
}

/// The runs of each pair of voices that is followed, and none of the others.
#[derive(Clone, Copy, Debug, PartialEq, Eq)]
pub struct OpenRuns {
    /// In the order of `rule_law::voice_pairs`.
    pub pairs: [Run; 6],
}

/// What is kept of them behind column `i`.
fn kept_after(ex: &Exercise, pairs: Pairs, i: usize, kept: &OpenRuns, now: &[Cell]) -> OpenRuns
    ensures { result ≡ words.kept_after ex.now pairs i kept.now now.now }
{
    if !begins_bar(i) {
        return *kept;
    }
    OpenRuns {
        pairs: followed_after(ex, pairs, i, &kept.pairs, now),
    }
}

/// How many pairs come to four bars with column `i`: what Q14 counts there, without its weight.
pub fn runs_ended(i: usize, kept: &OpenRuns, now: &[Cell]) -> u32
    ensures value { result ≡ words.runs_ended i kept.now now.now }
    ensures bound { result ≤ 6 }
{
    if begins_bar(i) {
        come_to_four(&kept.pairs, now)
    } else {
        0
    }
}

/// What they cost there, by weight.
pub(crate) fn runs_paid(sheet: &Sheet, i: usize, kept: &OpenRuns, now: &[Cell]) -> u32
    ensures value { result ≡ words.runs_paid sheet.now i kept.now now.now }
    ensures bound { result ≤ 2 ^ 20 }
{
    runs_ended(i, kept, now) * u32::from(weight(sheet, 14))
}

impl OpenPart for OpenRuns {
    ghost nothing = { words.nothing };

    ghost open_in = { words.open_in };

    ghost open_after = { words.open_after };

    fn none() -> OpenRuns {
        OpenRuns {
            pairs: [Run::none(); 6],
        }
    }

    fn is_same(&self, other: &OpenRuns) -> bool {
        self.pairs == other.pairs
    }

    fn key(&self, before: u64) -> u64 {
        let [first, second, third, fourth, fifth, sixth] = self.pairs;
        let own = 1_048_576 * first.key()
            + 65_536 * second.key()
            + 4_096 * third.key()
            + 256 * fourth.key()
            + 16 * fifth.key();
        mixed(before, own + sixth.key())
    }

    fn after(
        ex: &Exercise,
        keeps: Keeps,
        i: usize,
        kept: &OpenRuns,
        _before: &[Cell],
        now: &[Cell],
    ) -> Option<OpenRuns> {
        Some(kept_after(ex, keeps.runs, i, kept, now))
    }

    fn lawful_steps_go_on() {}
}
