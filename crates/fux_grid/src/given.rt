//! Notes that an exercise gives to its free voices.

use crate::cell::Cell;
use crate::exercise::{Exercise, are_bars, is_free};
use crate::score::Score;
use fux_pitch::Pitch;

/// What an exercise gives of one cell.
#[derive(Clone, Copy, Debug, PartialEq, Eq, Default)]
pub enum Given {
    /// Nothing: any cell may stand there.
    #[default]
    Blank,
    /// A rest.
    Rest,
    /// A note that goes on, of any pitch.
    Tied,
    /// This pitch goes on.
    Hold(Pitch),
    /// This pitch starts.
    Start(Pitch),
}

/// What an exercise gives of a free voice in one bar, slot by slot. Bars are counted from 1.
#[derive(Clone, Copy, Debug, PartialEq, Eq)]
pub struct GivenBar {
    pub voice: u8,
    pub bar: u8,
    pub cells: [Given; 8],
}

impl Given {
    ghost use Rattle.std.specs.Prelude.{◌≡◌};
    ghost use Rattle.fux_grid.specs.Givens.{fits, given_follows};

    /// Whether a cell fits what is given.
    pub fn fits(self, cell: Cell) -> bool
        ensures { result ≡ fits self cell }
    {
        match self {
            Given::Blank => true,
            Given::Rest => cell.is_same(Cell::Rest),
            Given::Tied => cell.is_hold(),
            Given::Hold(p) => cell.is_same(Cell::Hold(p)),
            Given::Start(p) => cell.is_same(Cell::Start(p)),
        }
    }

    /// Whether this may be given behind `before`: a tie goes on from a tie, a pitch that goes on
    /// from the same pitch.
    pub fn follows(self, before: Given) -> bool
        ensures { result ≡ given_follows before self }
    {
        match self {
            Given::Tied => matches!(before, Given::Tied),
            Given::Hold(p) => match before {
                Given::Hold(q) => q == p,
                Given::Start(q) => q == p,
                _ => false,
            },
            _ => true,
        }
    }
}

ghost use Rattle.std.specs.Prelude.{◌≡◌, ◌↔◌, ◌<◌, ◌≤◌, ◌*◌, ◌==◌, ◌&&◌, ℕ, [], All, AllPairs, IsTrue, length, slice_index_or};
ghost use Rattle.std.specs.List.{find};
ghost use Rattle.fux_grid.specs.declared.given.Given.TheVariants.{Tied};
ghost use Rattle.fux_grid.specs.Cells.{cell_in};
ghost use Rattle.fux_grid.specs.Exercises.{FitsGiven, IsGivenBar, given_at};
ghost use Rattle.fux_grid.specs.Givens.{fits, FollowOn, IsEarlier};

/// The bar that is given of a voice, where one is.
fn find_bar(lines: &[GivenBar], v: u8, bar: u8) -> Option<GivenBar>
    ensures { result ≡ find (λ line. (line.voice == v) && (line.bar == bar)) lines.now }
{
    for line in lines {
        if line.voice == v && line.bar == bar {
            return Some(*line);
        }
    }
    None
}

/// What is given of a voice's cell at a column: nothing where no line gives it.
pub fn given_at(ex: &Exercise, v: u8, i: usize) -> Given
    requires { i < 8 * ex.now.bars }
    ensures { result ≡ given_at ex.now i v }
{
    match find_bar(ex.given.as_slice(), v, (i / 8) as u8 + 1) {
        Some(line) => line.cells[i % 8],
        None => Given::Blank,
    }
}

/// Whether each of these cells may be given behind the one before it, the first one behind a tie.
fn follow_on(cells: &[Given]) -> bool
    ensures { IsTrue result ↔ FollowOn Tied cells.now }
{
    let mut before = Given::Tied;
    for given in cells {
        if !given.follows(before) {
            return false;
        }
        before = *given;
    }
    true
}

/// Whether a bar that is given fits the exercise.
fn is_given_bar(ex: &Exercise, line: &GivenBar) -> bool
    ensures { IsTrue result ↔ IsGivenBar ex.now line.now }
{
    is_free(ex, line.voice) && are_bars(ex, line.bar, line.bar) && follow_on(&line.cells)
}

/// Whether a bar that is given comes before another one.
fn is_earlier(line: &GivenBar, other: &GivenBar) -> bool
    ensures { IsTrue result ↔ IsEarlier line.now other.now }
{
    line.voice < other.voice || line.voice == other.voice && line.bar < other.bar
}

/// Whether the bars that are given ascend, by voice and then by bar.
fn given_ascend(lines: &[GivenBar]) -> bool
    ensures { IsTrue result ↔ AllPairs IsEarlier lines.now }
{
    for k in 1..lines.len() {
        if !is_earlier(&lines[k - 1], &lines[k]) {
            return false;
        }
    }
    true
}

/// Whether each bar that is given fits the exercise.
fn given_bars_fit(ex: &Exercise) -> bool
    ensures { IsTrue result ↔ All (IsGivenBar ex.now) ex.now.given }
{
    ex.given
        .as_slice()
        .iter()
        .all(|line| is_given_bar(ex, line))
}

/// Whether the bars that are given fit the exercise and ascend.
pub(crate) fn are_given_bars(ex: &Exercise) -> bool
    ensures { IsTrue result ↔ All (IsGivenBar ex.now) ex.now.given × AllPairs IsEarlier
        ex.now.given }
{
    given_bars_fit(ex) && given_ascend(ex.given.as_slice())
}

/// Whether each cell of a score's column fits what is given there.
fn fits_at(ex: &Exercise, score: &Score, i: usize) -> bool
    requires place { i < 8 * ex.now.bars }
    requires there { i < length score.now.columns }
    ensures { IsTrue result ↔ ((v : ℕ) → v < ex.now.voices
        → IsTrue (fits (given_at ex.now i v) (cell_in (slice_index_or score.now.columns i []) v))) }
{
    for v in 0..ex.voices {
        if !given_at(ex, v, i).fits(score.cell(v as usize, i)) {
            return false;
        }
    }
    true
}

/// Whether each cell of a score fits what is given there.
pub(crate) fn fits_given(ex: &Exercise, score: &Score) -> bool
    requires few { length score.now.columns ≤ 8 * ex.now.bars }
    ensures { IsTrue result ↔ FitsGiven ex.now score.now.columns }
{
    for i in 0..score.len() {
        if !fits_at(ex, score, i) {
            return false;
        }
    }
    true
}
