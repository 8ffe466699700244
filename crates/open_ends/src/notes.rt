//! What is kept of the notes of the species voice.

ghost use Rattle.std.specs.Prelude.{◌≡◌, Some};
ghost use Rattle.open_ends.specs.Notes as words;

use crate::keys::{key_of, mixed};
use fux_grid::{Cell, Exercise};
use fux_pitch::{Interval, Pitch, in_gamut, interval_of, semitone, spell};
use rule_law::{falls, rises};

/// Which way a move goes.
#[derive(Clone, Copy, Debug, PartialEq, Eq)]
pub enum Way {
    Falls,
    /// It has no semitones; there is none; or it can't matter.
    Level,
    Rises,
}

/// The newest note, the way of the move to it, and the latest turning note, as far as S8 may come
/// to ask for them.
#[derive(Clone, Copy, Debug, PartialEq, Eq)]
pub struct OpenTurns {
    pub newest: Option<Pitch>,
    pub way: Way,
    /// None once the voice is more than six semitones away, or if it can't come to a note six
    /// semitones off.
    pub turning: Option<Pitch>,
}

/// A number by which a way may be looked up.
fn way_key(way: Way) -> u64 {
    match way {
        Way::Falls => 0,
        Way::Level => 1,
        Way::Rises => 2,
    }
}

/// A number by which what is kept may be looked up.
pub(crate) fn turn_key(kept: &OpenTurns) -> u64 {
    mixed(
        mixed(way_key(kept.way), key_of(kept.newest)),
        key_of(kept.turning),
    )
}

/// Which way a move goes.
fn way_of(step: Interval) -> Way
    ensures { result ≡ words.way_of (Some step) }
{
    if rises(step) {
        Way::Rises
    } else if falls(step) {
        Way::Falls
    } else {
        Way::Level
    }
}

/// Which way the move to a note goes.
fn way_between(previous: Option<Pitch>, pitch: Pitch) -> Way
    ensures { result ≡ words.way_between previous pitch }
{
    match previous {
        Some(previous) => way_of(interval_of(previous, pitch)),
        None => Way::Level,
    }
}

/// Whether a move goes the other way.
fn goes_back(way: Way, step: Interval) -> bool
    ensures { result ≡ words.goes_back way step }
{
    match way {
        Way::Falls => rises(step),
        Way::Level => false,
        Way::Rises => falls(step),
    }
}

/// Whether a note starts by which the newest one becomes a turning note.
fn turns_back(kept: &OpenTurns, now: Cell) -> bool
    ensures { result ≡ words.turns_back kept.now now }
{
    match (kept.newest, now) {
        (Some(newest), Cell::Start(pitch)) => goes_back(kept.way, interval_of(newest, pitch)),
        _ => false,
    }
}

/// How many semitones lie between two pitches.
fn semitones_between(p: Pitch, q: Pitch) -> u16
    ensures { result ≡ words.semitones_between p q }
{
    interval_of(p, q).semitones.unsigned_abs()
}

/// S8: whether a note starts by which the newest one becomes a turning note, six semitones from the
/// one before it.
pub(crate) fn turns_badly(kept: &OpenTurns, now: Cell) -> bool
    ensures { result ≡ words.turns_badly kept.now now }
{
    match (kept.turning, kept.newest) {
        (Some(turning), Some(newest)) => {
            turns_back(kept, now) && semitones_between(turning, newest) == 6
        }
        _ => false,
    }
}

/// Whether a column is in one of the last four bars.
fn is_near_end(ex: &Exercise, i: usize) -> bool
    ensures { result ≡ words.is_near_end ex.now i }
{
    (8 * usize::from(ex.bars)).saturating_sub(i) <= 32
}

/// Whether the mode has a pitch: the gamut of the last bar has those of all others. What the mode
/// raises there counts near the end alone.
fn is_in_mode(ex: &Exercise, i: usize, pitch: Pitch) -> bool
    ensures { result ≡ words.is_in_mode ex.now i pitch }
{
    in_gamut(ex.mode, 1, 1, pitch) && (is_near_end(ex, i) || pitch.alter() != 1)
}

/// Whether a pitch lies within some range of the species voice.
fn is_in_reach(ex: &Exercise, pitch: Pitch) -> bool
    ensures { result ≡ words.is_in_reach ex.now pitch }
{
    let key = semitone(pitch);
    ex.ranges.as_slice().iter().any(|line| {
        line.voice == ex.species_voice && semitone(line.low) <= key && key <= semitone(line.high)
    })
}

/// Whether the voice may come to a note of a key.
fn may_sound(ex: &Exercise, i: usize, key: u8) -> bool
    ensures { result ≡ words.may_sound ex.now i key }
{
    match spell(key) {
        Some(pitch) => is_in_mode(ex, i, pitch) && is_in_reach(ex, pitch),
        None => false,
    }
}

/// Whether the voice, if it turns back at a note that it comes to, may come to one six semitones
/// off.
fn has_tritone(ex: &Exercise, i: usize, way: Way, pitch: Pitch) -> bool
    ensures { result ≡ words.has_tritone ex.now i way pitch }
{
    let key = semitone(pitch);
    match way {
        Way::Falls => may_sound(ex, i, key + 6),
        Way::Level => false,
        Way::Rises => may_sound(ex, i, key - 6),
    }
}

/// A turning note that the voice came to, if it may come to a note six semitones off.
fn with_tritone(ex: &Exercise, i: usize, way: Way, turning: Option<Pitch>) -> Option<Pitch>
    ensures { result ≡ words.with_tritone ex.now i way turning }
{
    match turning {
        Some(pitch) if has_tritone(ex, i, way, pitch) => Some(pitch),
        _ => None,
    }
}

/// A turning note, if it lies at most six semitones from the newest note.
fn while_near(turning: Option<Pitch>, pitch: Pitch) -> Option<Pitch>
    ensures { result ≡ words.while_near turning pitch }
{
    match turning {
        Some(turning) if semitones_between(turning, pitch) <= 6 => Some(turning),
        _ => None,
    }
}

/// What is kept of the latest turning note, once a further note starts in column `i`.
fn turning_after(ex: &Exercise, i: usize, kept: &OpenTurns, pitch: Pitch) -> Option<Pitch>
    ensures { result ≡ words.turning_after ex.now i kept.now pitch }
{
    let turning = if turns_back(kept, Cell::Start(pitch)) {
        with_tritone(ex, i, kept.way, kept.newest)
    } else {
        kept.turning
    };
    while_near(turning, pitch)
}

/// What is kept, once a further note starts.
fn with_note(ex: &Exercise, i: usize, kept: &OpenTurns, pitch: Pitch) -> OpenTurns
    ensures { result ≡ words.with_note ex.now i kept.now pitch }
{
    let turning = turning_after(ex, i, kept, pitch);
    let way = way_between(kept.newest, pitch);
    let matters = turning.is_some() || has_tritone(ex, i, way, pitch);
    OpenTurns {
        newest: Some(pitch),
        way: if matters { way } else { Way::Level },
        turning,
    }
}

/// What is kept after one more cell of the voice, that of column `i`.
pub(crate) fn noted(ex: &Exercise, i: usize, kept: &OpenTurns, cell: Cell) -> OpenTurns
    ensures { result ≡ words.noted ex.now i kept.now cell }
{
    match cell {
        Cell::Start(pitch) => with_note(ex, i, kept, pitch),
        Cell::Hold(_) | Cell::Rest => *kept,
    }
}
