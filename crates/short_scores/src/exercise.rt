//! Exercises by lines.

ghost use Rattle.std.specs.Prelude.{◌≡◌, ◌≤◌, IfSome, length};
ghost use Rattle.fux_grid.specs.Exercises.{IsValid, columns_in};

use crate::given::given_bars;
use crate::score::{pitch_of, pitches_of, score_of};
use fux_grid::{Exercise, RangeLine, Relax, Score, VoiceSet};
use fux_pitch::{AnyList, Mode, Pitch};
use std::alloc::Global;

/// An exercise, and a score of its voices.
#[derive(Drop)]
pub struct Case {
    pub exercise: Box<Exercise<'static>>,
    pub score: Score,
}

/// The mode of a name.
pub fn mode_of(name: &str) -> Option<Mode> {
    Some(match name {
        "dorian" => Mode::Dorian,
        "phrygian" => Mode::Phrygian,
        "lydian" => Mode::Lydian,
        "mixolydian" => Mode::Mixolydian,
        "aeolian" => Mode::Aeolian,
        "ionian" => Mode::Ionian,
        _ => return None,
    })
}

fn number(word: Option<&str>) -> Option<u8> {
    word?.parse::<u8>().ok()
}

/// A line as `1 C4 C5`, or `1 C4 C5 2 3` for these bars alone.
fn range_line(line: &str) -> Option<RangeLine> {
    let mut words = line.split(' ');
    let voice = number(words.next())?;
    let low = pitch_of(words.next()?)?;
    let high = pitch_of(words.next()?)?;
    let mut bars = None;
    if let Some(from) = words.next() {
        bars = Some((from.parse::<u8>().ok()?, number(words.next())?));
    }
    Some(RangeLine {
        voice,
        low,
        high,
        bars,
    })
}

fn has_line(lines: &[RangeLine], voice: u8) -> bool {
    for line in lines {
        if line.voice == voice {
            return true;
        }
    }
    false
}

/// The lines that begin with `range`, and a wide one for each voice that has none, but for that of
/// the cantus.
fn ranges(alloc: Global, text: &str, voices: u8, cantus_voice: u8) -> Option<Vec<RangeLine>> {
    let (low, high) = (pitch_of("C3")?, pitch_of("D6")?);
    let mut ranges = Vec::new(alloc);
    for line in text.lines() {
        if let Some(line) = line.strip_prefix("range ") {
            ranges.push(range_line(line)?).ok()?;
        }
    }
    for voice in 0..voices {
        if voice != cantus_voice && !has_line(&ranges, voice) {
            ranges
                .push(RangeLine {
                    voice,
                    low,
                    high,
                    bars: None,
                })
                .ok()?;
        }
    }
    Some(ranges)
}

/// A line for all bars as `16 3 30`: a rule, the bits of its voices or 0 for all sets of them, and
/// a price.
fn relax_line(line: &str, bars: u8) -> Option<Relax> {
    let mut words = line.split(' ');
    let rule = number(words.next())?;
    let bits = number(words.next())?;
    let price = words.next()?.parse::<u16>().ok()?;
    Some(Relax {
        rule,
        voices: if bits == 0 {
            None
        } else {
            Some(VoiceSet { bits })
        },
        from: 1,
        to: bars,
        price,
    })
}

/// The lines that begin with `relax`.
fn relaxed(alloc: Global, text: &str, bars: u8) -> Option<Vec<Relax>> {
    let mut relaxed = Vec::new(alloc);
    for line in text.lines() {
        if let Some(line) = line.strip_prefix("relax ") {
            relaxed.push(relax_line(line, bars)?).ok()?;
        }
    }
    Some(relaxed)
}

/// The line that begins with `cantus`.
fn cantus(alloc: Global, text: &str) -> Option<Vec<Pitch>> {
    for line in text.lines() {
        if let Some(names) = line.strip_prefix("cantus ") {
            return pitches_of(alloc, names);
        }
    }
    None
}

/// The species of the line that begins with `mixed`, by voice, and 1 for the voices beyond its end.
fn species_of(line: &str) -> Option<[u8; 4]> {
    let mut species = [1u8; 4];
    for (place, word) in species.iter_mut().zip(line.split(' ')) {
        *place = word.parse::<u8>().ok()?;
    }
    Some(species)
}

/// The species of each voice, where a line tells them.
fn mixed(text: &str) -> Option<Option<[u8; 4]>> {
    for line in text.lines() {
        if let Some(line) = line.strip_prefix("mixed ") {
            return Some(Some(species_of(line)?));
        }
    }
    Some(None)
}

/// The exercise of a text, for so many voices: a line with the mode, the species, the voice that
/// has it and the voice of the cantus, and then a line that begins with `cantus`, and lines that
/// begin with `range`, `relax`, `given` or `mixed`. Other lines are passed over. It may be no valid
/// one.
pub fn any_exercise_of(alloc: Global, text: &str, voices: u8) -> Option<Box<Exercise<'static>>> {
    let mut words = text.lines().next()?.split(' ');
    let mode = mode_of(words.next()?)?;
    let species = number(words.next())?;
    let species_voice = number(words.next())?;
    let cantus_voice = number(words.next())?;
    let cantus = cantus(alloc, text)?;
    let bars = u8::try_from(cantus.len()).ok()?;
    let ranges = ranges(alloc, text, voices, cantus_voice)?;
    let relaxed = relaxed(alloc, text, bars)?;
    let given = given_bars(alloc, text)?;
    let mixed = mixed(text)?;
    let exercise = Exercise {
        mode,
        voices,
        bars,
        species,
        species_voice,
        mixed,
        cantus_voice,
        cantus: AnyList::new(cantus),
        ranges: AnyList::new(ranges),
        relax: AnyList::new(relaxed),
        given: AnyList::new(given),
        setting: None,
    };
    Box::new(alloc, exercise).ok()
}

/// The valid exercise of such a text.
pub fn exercise_of(alloc: Global, text: &str, voices: u8) -> Option<Box<Exercise<'static>>>
    ensures { IfSome result (λ exercise. IsValid exercise.value) }
{
    let exercise = any_exercise_of(alloc, text, voices)?;
    if !exercise.is_valid() {
        return None;
    }
    Some(exercise)
}

/// The exercise of a text, and the score of its lines that have a colon: the voices, the lowest
/// first.
pub fn case_of(alloc: Global, text: &str) -> Option<Case>
    ensures valid { IfSome result (λ case. IsValid case.exercise.value) }
    ensures voices { IfSome result (λ case. case.score.voices ≡ case.exercise.value.voices) }
    ensures few { IfSome result (λ case. length case.score.columns ≤ columns_in case.exercise.value) }
{
    let mut lines = Vec::new(alloc);
    for line in text.lines() {
        if line.contains(':') {
            lines.push(line).ok()?;
        }
    }
    let score = score_of(alloc, &lines)?;
    let exercise = exercise_of(alloc, text, score.voices())?;
    if score.voices() != exercise.voices || score.len() > 8 * usize::from(exercise.bars) {
        return None;
    }
    Some(Case { exercise, score })
}
