//! What voices break of the rules S3 to S9, asked once for each cell as long as that stays.

ghost use Rattle.std.specs.Prelude.{◌≡◌, ◌<◌, ◌&&◌, true, IsSomeAnd, Some};
ghost use Rattle.std.specs.Bool.{OnTrue};
ghost use Rattle.cert_law.specs.VoicesTold.{AreVoicesTold, IsVoiceTold};
ghost use Rattle.chain_sums.specs.Sums as sums;
ghost use Rattle.fux_grid.specs.declared.exercise.Exercise.{Exercise as AnExercise};
ghost use Rattle.fux_grid.specs.Cells.{cell_in};
ghost use Rattle.fux_grid.specs.Columns.{Columns};
ghost use Rattle.fux_grid.specs.Exercises.{IsValid, columns_in};
ghost use Rattle.fux_judge.specs.declared.state.State.{State as AState};
ghost use Rattle.fux_judge.specs.Penalties.{newly_broken};
ghost use Rattle.fux_judge.specs.Rules.{is_read};
ghost use Rattle.fux_judge.specs.States.{IsStateOf};
ghost use Rattle.fux_judge.specs.Told.{TellsLine, least_by_cell};
ghost use Rattle.fux_judge.specs.Verdicts.{GoingOn};

use fux_grid::{Cell, Column, Exercise, cell_of};
use fux_judge::{State, is_rule, line_break};

/// A cell of a voice, and the least of S3 to S9 that the voice breaks strictly with it.
#[derive(Clone, Copy)]
pub struct VoiceTold {
    pub cell: Cell,
    pub least: Option<u8>,
}

/// What was told last of each voice, where it was asked.
#[derive(Clone, Copy)]
pub struct VoicesTold {
    pub first: Option<VoiceTold>,
    pub second: Option<VoiceTold>,
    pub third: Option<VoiceTold>,
    pub fourth: Option<VoiceTold>,
}

impl VoicesTold {
    /// No voice was asked.
    pub fn none() -> VoicesTold
        ensures { (ex : AnExercise) (state : AState) → AreVoicesTold ex state result }
    {
        VoicesTold {
            first: None,
            second: None,
            third: None,
            fourth: None,
        }
    }
}

/// The least of S3 to S9 that a voice of a column breaks strictly: as it was told of its cell, or
/// else it is asked, and told of the cell from then on.
#[inline(always)]
fn ask_voice(
    ex: &Exercise,
    state: &State,
    col: &Column,
    v: u8,
    told: &mut Option<VoiceTold>,
) -> Option<u8>
    requires valid { IsValid ex.now }
    requires room { state.now.newest.len < columns_in ex.now }
    requires voice { v < 4 }
    requires told { IsVoiceTold ex.now state.now v told.old }
    ensures told { IsVoiceTold ex.now state.now v told.new }
    ensures least { (p : Columns) → IsStateOf ex.now p state.now
        → result ≡ least_by_cell ex.now p v (cell_in col.now.items v) }
{
    let cell = cell_of(col.as_slice(), v as usize);
    if let Some(voice) = *told {
        if voice.cell == cell {
            return voice.least;
        }
    }
    let least = line_break(ex, state, col, v);
    *told = Some(VoiceTold { cell, least });
    least
}

/// The lesser of two rules; where one is none, the other.
#[inline(always)]
fn lesser(a: Option<u8>, b: Option<u8>) -> Option<u8>
    ensures { result ≡ sums.lesser a b }
{
    match (a, b) {
        (Some(x), Some(y)) => Some(if x <= y { x } else { y }),
        (Some(x), None) => Some(x),
        (None, _) => b,
    }
}

/// The least of S3 to S9 that a column breaks strictly in some voice.
pub(crate) fn ask_voices(
    ex: &Exercise,
    state: &State,
    col: &Column,
    voices: &mut VoicesTold,
) -> Option<u8>
    requires valid { IsValid ex.now }
    requires room { state.now.newest.len < columns_in ex.now }
    requires voices { AreVoicesTold ex.now state.now voices.old }
    ensures voices { AreVoicesTold ex.now state.now voices.new }
    ensures line { TellsLine ex.now state.now col.now.items result }
{
    let first = ask_voice(ex, state, col, 0, &mut voices.first);
    let second = ask_voice(ex, state, col, 1, &mut voices.second);
    let third = ask_voice(ex, state, col, 2, &mut voices.third);
    let fourth = ask_voice(ex, state, col, 3, &mut voices.fourth);
    let lower = lesser(first, second);
    let upper = lesser(third, fourth);
    lesser(lower, upper)
}

/// Whether a voice was told of its cell in a column, and that a rule is the least that it breaks
/// with it.
#[inline(always)]
fn is_told(col: &Column, v: u8, told: &Option<VoiceTold>, rule: u8) -> bool
    ensures { OnTrue result (IsSomeAnd told.now (λ it. (it.cell ≡ cell_in col.now.items v)
        × (it.least ≡ Some rule))) }
{
    let cell = cell_of(col.as_slice(), v as usize);
    if let Some(voice) = *told {
        if voice.cell == cell {
            return is_rule(voice.least, rule);
        }
    }
    false
}

/// Whether some voice was told so.
fn is_told_of_some(col: &Column, voices: &VoicesTold, rule: u8) -> bool
    ensures { OnTrue result ((ex : AnExercise) (state : AState) → AreVoicesTold ex state voices.now
        → GoingOn ex state col.now.items
        (λ p added. (is_read rule && newly_broken ex p added rule) ≡ true)) }
{
    if is_told(col, 0, &voices.first, rule) {
        return true;
    }
    if is_told(col, 1, &voices.second, rule) {
        return true;
    }
    if is_told(col, 2, &voices.third, rule) {
        return true;
    }
    if is_told(col, 3, &voices.fourth, rule) {
        return true;
    }
    false
}

/// Whether a rule is told to be one that a column breaks strictly: it is the least of S3 to S9 that
/// some voice breaks by its cell. No voice is asked where one was told that it is.
pub(crate) fn is_broken_by_voice(
    ex: &Exercise,
    state: &State,
    col: &Column,
    voices: &mut VoicesTold,
    rule: u8,
) -> bool
    requires valid { IsValid ex.now }
    requires room { state.now.newest.len < columns_in ex.now }
    requires voices { AreVoicesTold ex.now state.now voices.old }
    ensures voices { AreVoicesTold ex.now state.now voices.new }
    ensures broken { OnTrue result (GoingOn ex.now state.now col.now.items
        (λ p added. (is_read rule && newly_broken ex.now p added rule) ≡ true)) }
{
    if is_told_of_some(col, voices, rule) {
        return true;
    }
    let line = ask_voices(ex, state, col, voices);
    is_rule(line, rule)
}
