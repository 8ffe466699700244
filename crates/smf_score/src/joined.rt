//! Placed notes as an answer to a lesson.

ghost use Rattle.std.specs.Prelude.{◌≡◌, IfOk, Ok};
ghost use Rattle.fux_grid.specs.Exercises.{IsGiven, IsValid};
ghost use Rattle.smf_score.specs.JoinFaults.{Gives};
ghost use Rattle.smf_score.specs.Joined as words;
ghost use Rattle.smf_score.specs.Joined.{bars_in, line_of, lines_of, score_in, voices_fault};
ghost use Rattle.smf_score.specs.Orders as orders;

use crate::exercise::last_slot;
use crate::fault::SmfFault;
use crate::grid::cells_of;
use crate::join_fault::JoinFault;
use crate::lesson_cantus::{are_late, cantus_fault};
use crate::orders::{cantus_at, voice_of};
use crate::placed::Placed;
use fux_grid::{Cell, Exercise, Score};
use fux_pitch::{List, Memory};
use std::alloc::Global;
use voice_lines::{cantus_cells, score_of};

/// How many bars there are, the last one whole.
fn bars_in(voices: &[List<Placed>]) -> u64
    ensures { result ≡ bars_in voices.now }
{
    let last = last_slot(voices);
    last / 8 + u64::from(last % 8 > 0)
}

/// The cells of a voice, where this voice of the file is the cantus.
fn line_of(
    alloc: Global,
    lesson: &Exercise,
    voices: &[List<Placed>],
    found: usize,
    v: u8,
) -> Result<List<Cell>, Memory>
    requires { found ≡ orders.cantus_at lesson.now voices.now }
    ensures { IfOk result (λ line. line ≡ line_of lesson.now voices.now v) }
{
    if v == lesson.cantus_voice {
        return Ok(List::new(cantus_cells(alloc, lesson.cantus.as_slice())?));
    }
    let notes = voice_of(lesson, voices, found, v);
    Ok(List::new(cells_of(alloc, notes, 8 * u64::from(lesson.bars))?))
}

/// The cells of each voice.
fn lines_of(
    alloc: Global,
    lesson: &Exercise,
    voices: &[List<Placed>],
    found: usize,
) -> Result<Vec<List<Cell>>, Memory>
    requires { found ≡ orders.cantus_at lesson.now voices.now }
    ensures { IfOk result (λ lines. lines.items ≡ lines_of lesson.now voices.now) }
{
    let mut lines = Vec::new(alloc);
    for v in 0..lesson.voices {
        lines.push(line_of(alloc, lesson, voices, found, v)?)?;
    }
    Ok(lines)
}

/// What is wrong with the voices.
fn voices_fault(
    alloc: Global,
    lesson: &Exercise,
    voices: &[List<Placed>],
    found: usize,
) -> Result<Option<JoinFault>, Memory>
    requires found { found ≡ orders.cantus_at lesson.now voices.now }
    requires lesson { IsValid lesson.now }
    ensures { IfOk result (λ fault. fault ≡ voices_fault lesson.now voices.now) }
{
    let cantus = voice_of(lesson, voices, found, lesson.cantus_voice);
    if are_late(cantus) {
        return Ok(Some(JoinFault::Pickup));
    }
    let count = bars_in(voices);
    if count != u64::from(lesson.bars) {
        return Ok(Some(JoinFault::Smf(SmfFault::Bars { count })));
    }
    cantus_fault(alloc, 0, lesson.cantus.as_slice(), cantus)
}

/// The setting that voices are, where this voice of the file is the cantus.
fn set_lines(
    alloc: Global,
    lesson: &Exercise,
    voices: &[List<Placed>],
    found: usize,
) -> Result<Score, JoinFault>
    requires found { found ≡ orders.cantus_at lesson.now voices.now }
    requires lesson { IsValid lesson.now }
    ensures value { Gives result (Ok (score_in lesson.now voices.now)) }
    ensures given { IfOk result (IsGiven lesson.now) }
{
    let lines = lines_of(alloc, lesson, voices, found)?;
    let score = score_of(alloc, &lines, lesson.bars)?;
    Ok(score)
}

/// The setting of the lesson that these voices of a file are.
#[tactic(auto, unfolding(crate::specs::Joined::joined))]
pub(crate) fn joined(
    alloc: Global,
    lesson: &Exercise,
    voices: &[List<Placed>],
) -> Result<Score, JoinFault>
    requires { IsValid lesson.now }
    ensures value { Gives result (words.joined lesson.now voices.now) }
    ensures given { IfOk result (IsGiven lesson.now) }
{
    if voices.len() != usize::from(lesson.voices) {
        return Err(JoinFault::Smf(SmfFault::VoiceCount {
            count: voices.len().min(65535) as u16,
        }));
    }
    let found = cantus_at(alloc, lesson, voices)?;
    match voices_fault(alloc, lesson, voices, found)? {
        Some(fault) => Err(fault),
        None => set_lines(alloc, lesson, voices, found),
    }
}
