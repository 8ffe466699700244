//! What is kept of the beginning of the newest bar.

ghost use Rattle.std.specs.Prelude.{◌≡◌};
ghost use Rattle.rule_law.specs.Nearby.{pitch_at};
ghost use Rattle.rule_law.specs.Terms as terms;
ghost use Rattle.open_ends.specs.BarLines as words;

use crate::asked::is_asked;
use fux_grid::{Cell, Exercise, cell_of, species_of};
use fux_pitch::{Pitch, interval_of};
use motion_rules::{differ, stays_near};
use rule_law::{begins_bar, equal_perfects, interval_in, sound_perfect, voice_pairs};

/// Whether S18 is asked of the species voice.
pub(crate) fn is_read(ex: &Exercise) -> bool
    ensures { result ≡ words.is_read ex.now }
{
    is_asked(ex, 18) && matches!(species_of(ex, ex.species_voice), 2 | 3 | 5)
}

/// Whether one of two voices is the species voice, and the second is there.
fn has_species_voice(ex: &Exercise, v: u8, w: u8) -> bool
    ensures { result ≡ words.has_species_voice ex.now v w }
{
    w < ex.voices && (v == ex.species_voice || w == ex.species_voice)
}

/// Whether a voice is one of two that sound a perfect interval, of which one is the species voice.
fn takes_part(ex: &Exercise, column: &[Cell], u: u8) -> bool
    ensures { result ≡ words.takes_part ex.now column.now u }
{
    voice_pairs().iter().any(|pair| {
        (pair.0 == u || pair.1 == u)
            && has_species_voice(ex, pair.0, pair.1)
            && sound_perfect(column, pair.0 as usize, pair.1 as usize)
    })
}

/// The pitch of a voice that does.
fn perfect_pitch(ex: &Exercise, column: &[Cell], u: u8) -> Option<Pitch>
    ensures { result ≡ words.perfect_pitch ex.now column.now u }
{
    if takes_part(ex, column, u) {
        cell_of(column, u as usize).pitch()
    } else {
        None
    }
}

/// The pitches of all voices that do.
fn perfect_pitches(ex: &Exercise, column: &[Cell]) -> [Option<Pitch>; 4]
    ensures { result ≡ words.perfect_pitches ex.now column.now }
{
    [
        perfect_pitch(ex, column, 0),
        perfect_pitch(ex, column, 1),
        perfect_pitch(ex, column, 2),
        perfect_pitch(ex, column, 3),
    ]
}

/// A voice's pitch among those of four voices; none where there is no such voice.
fn pitch_of_voice(pitches: &[Option<Pitch>; 4], v: usize) -> Option<Pitch>
    ensures { result ≡ pitch_at pitches.now v }
{
    let pitches = &pitches[..];
    if v < 4 { pitches[v] } else { None }
}

/// What is kept after column `i`, where this was kept before it.
pub(crate) fn bar_line_after(
    ex: &Exercise,
    i: usize,
    kept: &[Option<Pitch>; 4],
    now: &[Cell],
) -> [Option<Pitch>; 4]
    ensures { result ≡ words.bar_line_after ex.now i kept.now now.now }
{
    if begins_bar(i) {
        return perfect_pitches(ex, now);
    }
    let v = ex.species_voice as usize;
    if stays_near(pitch_of_voice(kept, v), cell_of(now, v)) {
        *kept
    } else {
        [None; 4]
    }
}

/// Whether the interval between two pitches is a perfect one, and that between two voices equals
/// it.
fn is_equal_perfect(p: Option<Pitch>, q: Option<Pitch>, now: &[Cell], v: usize, w: usize) -> bool
    ensures { result ≡ terms.equal_perfects (terms.interval_of_pitches p q)
        (terms.interval_in now.now v w) }
{
    match (p, q, interval_in(now, v, w)) {
        (Some(p), Some(q), Some(to)) => equal_perfects(interval_of(p, q), to),
        _ => false,
    }
}

/// Whether two voices have gone on from these pitches to others, from a perfect interval to an
/// equal one.
fn arrive_from(kept: &[Option<Pitch>; 4], now: &[Cell], v: usize, w: usize) -> bool
    ensures { result ≡ words.arrive_from kept.now now.now v w }
{
    let (p, q) = (pitch_of_voice(kept, v), pitch_of_voice(kept, w));
    is_equal_perfect(p, q, now, v, w)
        && differ(p, cell_of(now, v).pitch())
        && differ(q, cell_of(now, w).pitch())
}

/// Whether the species voice and another one have.
fn some_arrive(ex: &Exercise, kept: &[Option<Pitch>; 4], now: &[Cell]) -> bool
    ensures { result ≡ words.some_arrive ex.now kept.now now.now }
{
    voice_pairs().iter().any(|pair| {
        has_species_voice(ex, pair.0, pair.1)
            && arrive_from(kept, now, pair.0 as usize, pair.1 as usize)
    })
}

/// Whether at the beginning of a bar they have.
pub(crate) fn arrives(ex: &Exercise, i: usize, kept: &[Option<Pitch>; 4], now: &[Cell]) -> bool
    ensures { result ≡ words.arrives ex.now i kept.now now.now }
{
    begins_bar(i) && some_arrive(ex, kept, now)
}
