//! What is kept of a path.

ghost use Rattle.std.specs.Prelude.{◌≡◌, ◌+◌, ◌*◌, ◌<◌, ◌^◌};
ghost use Rattle.priced_floors.specs.Looked as words;

use fux_pitch::Pitch;
use open_ends::{OpenEnds, Run};
use std::hash::{Hash, Hasher};

/// The number of a path's last column in its menu, none of the empty path; and what waits behind it
/// for later columns.
#[derive(Clone, Copy, Debug, PartialEq, Eq)]
pub struct Kept {
    pub column: Option<u16>,
    pub ends: OpenEnds,
}

/// The degree of a pitch, 0 for none.
fn degree_or(pitch: Option<Pitch>) -> u64
    ensures value { result ≡ words.degree_or pitch }
    ensures small { result < 256 }
{
    match pitch {
        Some(pitch) => u64::from(pitch.degree()),
        None => 0,
    }
}

/// A number of the pitches that are kept.
fn pitches_number(ends: &OpenEnds) -> u64
    ensures { result ≡ words.pitches_number ends.now }
{
    let rules = &ends.first.second;
    let [first, second, third, _] = rules.second.second.first.pitches;
    degree_or(ends.first.first.origin)
        + 256 * degree_or(rules.first.pitch)
        + 65_536 * degree_or(rules.second.second.second.second.second.turning)
        + 16_777_216 * degree_or(first)
        + 4_294_967_296 * degree_or(second)
        + 1_099_511_627_776 * degree_or(third)
}

/// A number of a run.
fn run_number(run: Run) -> u64
    ensures value { result ≡ run.thirds + 4 * run.sixths }
    ensures small { result < 2 ^ 11 }
{
    u64::from(run.thirds) + 4 * u64::from(run.sixths)
}

/// A number of the runs and the shapes that are kept.
fn rest_number(ends: &OpenEnds) -> u64
    ensures { result ≡ words.rest_number ends.now }
{
    let [first, second, third, _, _, _] = ends.second.pairs;
    run_number(first)
        + 2_048 * run_number(second)
        + 4_194_304 * run_number(third)
        + 8_589_934_592 * u64::from(ends.first.second.second.first.possible)
}

/// A number of the last column.
fn column_number(column: Option<u16>) -> u64
    ensures { result ≡ words.column_number column }
{
    match column {
        Some(number) => u64::from(number) + 1,
        None => 0,
    }
}

impl Hash for Kept {
    ghost hash_input = { words.kept_input };

    ghost respects_eq = { words.kept_alike };

    fn hash<H: Hasher>(&self, state: &mut H) {
        state.write_u64(pitches_number(&self.ends));
        state.write_u64(rest_number(&self.ends));
        state.write_u64(column_number(self.column));
    }
}
