//! What is to be set.

ghost use Rattle.std.specs.Prelude.{◌≡◌, ◌↔◌, ℕ, ◌<◌, ◌≤◌, ◌*◌, ◌/◌, ◌==◌, ◌&&◌, IfSome, IsTrue, All, filter, length, slice_index_or};
ghost use Rattle.std.specs.List.{last_or};
ghost use Rattle.fux_grid.specs.Exercises.{as_mixed, is_mixed, species_in, cantus_cell, AreBars, AreSpecies, BeginsWithWhole, HasCantus, HasCantusAt, IsFree, IsGiven, IsRangeLine, IsRelax, IsSpecies, IsValid, range_lines};
ghost use Rattle.fux_grid.specs.Menus.{covers, range_of};

use crate::cell::Cell;
use crate::given::{GivenBar, are_given_bars, fits_given};
use crate::score::Score;
use fux_pitch::{AnyList, Mode, Pitch, semitone};

/// A place of the grid: a bar, counted from 1, and a slot in it, from 0 to 7.
#[derive(Clone, Copy, Debug, PartialEq, Eq)]
pub struct Place {
    pub bar: u8,
    pub slot: u8,
}

/// A set of voices: bit v is voice v.
#[derive(Clone, Copy, Debug, PartialEq, Eq)]
pub struct VoiceSet {
    pub bits: u8,
}

/// The range of a voice: in all bars, or from one bar to another, both counted from 1.
#[derive(Clone, Copy, Debug, PartialEq, Eq)]
pub struct RangeLine {
    pub voice: u8,
    pub low: Pitch,
    pub high: Pitch,
    pub bars: Option<(u8, u8)>,
}

/// The rules of every exercise are numbered from 1 to this. Relax lines and the claims of
/// certificates name no others.
pub const GREATEST_RULE: u8 = 26;

/// With the rules of mixed exercises, which are never relaxed, rules are numbered from 1 to this.
pub const GREATEST_MIXED_RULE: u8 = 28;

/// A rule that is relaxed from one bar to another at a price for each break: for one set of voices,
/// or for all sets.
#[derive(Clone, Copy, Debug, PartialEq, Eq)]
pub struct Relax {
    pub rule: u8,
    pub voices: Option<VoiceSet>,
    pub from: u8,
    pub to: u8,
    pub price: u16,
}

/// An exercise: a cantus firmus, and what the other voices may do. Voices are numbered from 0 at
/// the lowest.
#[derive(Drop)]
pub struct Exercise<'a> {
    pub mode: Mode,
    pub voices: u8,
    pub bars: u8,
    /// The species of the species voice, from 1 to 5. All other voices have species 1.
    pub species: u8,
    pub species_voice: u8,
    /// The species of each voice, where they are mixed: then `species` and `species_voice` say what
    /// the unnamed voices have.
    pub mixed: Option<[u8; 4]>,
    pub cantus_voice: u8,
    /// One pitch for each bar.
    pub cantus: AnyList<'a, Pitch>,
    pub ranges: AnyList<'a, RangeLine>,
    pub relax: AnyList<'a, Relax>,
    /// What is given to the free voices, by voice and then by bar.
    pub given: AnyList<'a, GivenBar>,
    /// A setting that came with the exercise. Composing disregards it.
    pub setting: Option<Score>,
}

/// What a file of notes alone doesn't tell of an exercise.
#[derive(Clone, Copy, Debug, PartialEq, Eq)]
pub struct Head {
    pub mode: Mode,
    /// From 1 to 5.
    pub species: u8,
    pub species_voice: u8,
    pub cantus_voice: u8,
    /// Whether the file has the highest voice first.
    pub top_first: bool,
}

/// Whether bars, where they are given, cover a bar.
fn covers_bar(bars: Option<(u8, u8)>, bar: u8) -> bool
    ensures { result ≡ covers bars bar }
{
    match bars {
        Some((from, to)) => from <= bar && bar <= to,
        None => true,
    }
}

/// The last range line of a voice that covers a bar.
fn last_line(lines: &[RangeLine], v: u8, bar: u8) -> Option<RangeLine>
    ensures { result ≡ last_or None (filter (λ line. (line.voice == v) && covers line.bars bar)
        lines.now) }
{
    let mut last = None;
    for line in lines {
        if line.voice == v && covers_bar(line.bars, bar) {
            last = Some(*line);
        }
    }
    last
}

/// The range of a free voice in a bar: the last line that covers the bar counts.
pub fn range(ex: &Exercise, v: u8, bar: u8) -> (Pitch, Pitch)
    requires valid { IsValid ex.now }
    requires free { IsFree ex.now v }
    ensures { range_of ex.now v bar ≡ Some result }
{
    let line = last_line(ex.ranges.as_slice(), v, bar).unwrap();
    (line.low, line.high)
}

/// Whether each voice has a species of its own.
#[inline]
pub fn is_mixed(ex: &Exercise) -> bool
    ensures { result ≡ is_mixed ex.now }
{
    ex.mixed.is_some()
}

/// The species that a list has for a voice, 1 beyond its end.
fn species_at(species: &[u8; 4], v: u8) -> u8
    ensures { result ≡ slice_index_or species.now v 1 }
{
    if v < 4 { species[v as usize] } else { 1 }
}

/// The species of a voice. A valid exercise has one of the five for each of its voices, and the
/// first for the cantus.
pub fn species_of(ex: &Exercise, v: u8) -> u8
    ensures value { result ≡ species_in ex.now v }
    ensures least { IsValid ex.now → v < ex.now.voices → 1 ≤ result }
    ensures most { IsValid ex.now → v < ex.now.voices → result ≤ 5 }
    ensures cantus { IsValid ex.now → v ≡ ex.now.cantus_voice → result ≡ 1 }
{
    match &ex.mixed {
        Some(species) => species_at(species, v),
        None if v == ex.species_voice => ex.species,
        None => 1,
    }
}

/// Whether a free voice's species is one of the five; other voices are not asked.
fn has_species(ex: &Exercise, species: &[u8; 4], v: u8) -> bool
    ensures { IsTrue result ↔ (IsFree ex.now v → IsSpecies (slice_index_or species.now v 1)) }
{
    let one = species_at(species, v);
    !is_free(ex, v) || 1 <= one && one <= 5
}

/// Whether these may be the species of the exercise's voices.
fn are_species(ex: &Exercise, species: &[u8; 4]) -> bool
    ensures { IsTrue result ↔ AreSpecies ex.now species.now }
{
    for v in 0..ex.voices {
        if !has_species(ex, species, v) {
            return false;
        }
    }
    species_at(species, ex.cantus_voice) == 1
}

/// Whether the species of its voices fit the exercise, where they are mixed.
fn mixed_fits(ex: &Exercise) -> bool
    ensures { IsTrue result ↔ IfSome ex.now.mixed (AreSpecies ex.now) }
{
    match &ex.mixed {
        Some(species) => are_species(ex, species),
        None => true,
    }
}

/// The same exercise with these species of its voices and no setting. It takes no memory.
pub fn mixed_as<'a>(ex: &'a Exercise<'_>, species: [u8; 4]) -> Exercise<'a>
    ensures value { result ≡ as_mixed ex.now species }
    ensures valid { IsValid ex.now → AreSpecies ex.now species → IsValid result }
{
    Exercise {
        mode: ex.mode,
        voices: ex.voices,
        bars: ex.bars,
        species: ex.species,
        species_voice: ex.species_voice,
        mixed: Some(species),
        cantus_voice: ex.cantus_voice,
        cantus: ex.cantus.lend(),
        ranges: ex.ranges.lend(),
        relax: ex.relax.lend(),
        given: ex.given.lend(),
        setting: None,
    }
}

impl<'a> Exercise<'a> {
    /// Whether the exercise is within the limits, and its parts fit one another.
    pub fn is_valid(&self) -> bool
        ensures { IsTrue result ↔ IsValid self.now }
    {
        if self.voices < 2 || self.voices > 4 || self.bars < 3 || self.bars > 24 {
            return false;
        }
        if self.species < 1 || self.species > 5 || self.species_voice >= self.voices {
            return false;
        }
        if self.cantus_voice >= self.voices || self.species_voice == self.cantus_voice {
            return false;
        }
        if !mixed_fits(self) {
            return false;
        }
        if self.cantus.as_slice().len() != self.bars as usize || self.relax.as_slice().len() > 64 {
            return false;
        }
        if !range_lines_fit(self) || !each_has_range(self) || !relax_lines_fit(self) {
            return false;
        }
        if !are_given_bars(self) {
            return false;
        }
        match &self.setting {
            Some(score) => is_given(self, score) && fits_given(self, score),
            None => true,
        }
    }
}

/// Whether the voice is there and isn't the cantus.
pub fn is_free(ex: &Exercise, v: u8) -> bool
    ensures { IsTrue result ↔ IsFree ex.now v }
{
    v < ex.voices && v != ex.cantus_voice
}

/// Whether these are bars of the exercise, from one to another.
pub(crate) fn are_bars(ex: &Exercise, from: u8, to: u8) -> bool
    ensures { IsTrue result ↔ AreBars ex.now from to }
{
    1 <= from && from <= to && to <= ex.bars
}

/// Whether a range line fits the exercise.
fn is_range_line(ex: &Exercise, line: &RangeLine) -> bool
    ensures { IsTrue result ↔ IsRangeLine ex.now line.now }
{
    if !is_free(ex, line.voice) || semitone(line.high) < semitone(line.low) {
        return false;
    }
    match line.bars {
        Some((from, to)) => are_bars(ex, from, to),
        None => true,
    }
}

/// Whether each range line fits the exercise.
fn range_lines_fit(ex: &Exercise) -> bool
    ensures { IsTrue result ↔ All (IsRangeLine ex.now) ex.now.ranges }
{
    ex.ranges
        .as_slice()
        .iter()
        .all(|line| is_range_line(ex, line))
}

/// Whether a voice has first a line for all bars, and then lines for some bars alone.
fn begins_with_whole(lines: &[RangeLine], v: u8) -> bool
    ensures { IsTrue result ↔ BeginsWithWhole (filter (λ line. line.voice == v) lines.now) }
{
    let mut has_whole = false;
    for line in lines {
        if line.voice == v {
            if line.bars.is_some() != has_whole {
                return false;
            }
            has_whole = true;
        }
    }
    has_whole
}

/// Whether the voice has its range, or needs none.
fn has_range(ex: &Exercise, v: u8) -> bool
    ensures { IsTrue result ↔ (IsFree ex.now v → BeginsWithWhole (range_lines ex.now v)) }
{
    !is_free(ex, v) || begins_with_whole(ex.ranges.as_slice(), v)
}

/// Whether each free voice has its range.
fn each_has_range(ex: &Exercise) -> bool
    ensures { IsTrue result ↔ ((v : ℕ) → IsFree ex.now v → BeginsWithWhole (range_lines ex.now v)) }
{
    for v in 0..ex.voices {
        if !has_range(ex, v) {
            return false;
        }
    }
    true
}

/// Whether a relax line fits the exercise.
fn is_relax(ex: &Exercise, line: &Relax) -> bool
    requires { ex.now.voices ≤ 4 }
    ensures { IsTrue result ↔ IsRelax ex.now line.now }
{
    if line.rule < 4 || line.rule > GREATEST_RULE || line.price > 10_000 {
        return false;
    }
    if !are_bars(ex, line.from, line.to) {
        return false;
    }
    match line.voices {
        Some(set) => 1 <= set.bits && set.bits < 1 << ex.voices,
        None => true,
    }
}

/// Whether each relax line fits the exercise.
fn relax_lines_fit(ex: &Exercise) -> bool
    requires { ex.now.voices ≤ 4 }
    ensures { IsTrue result ↔ All (IsRelax ex.now) ex.now.relax }
{
    ex.relax.as_slice().iter().all(|line| is_relax(ex, line))
}

/// The cell of the cantus at a column, where this is its pitch.
pub(crate) fn cantus_cell_of(i: usize, pitch: Pitch) -> Cell
    ensures { result ≡ cantus_cell i pitch }
{
    if i % 8 == 0 {
        Cell::Start(pitch)
    } else {
        Cell::Hold(pitch)
    }
}

/// Whether this is the cell of the cantus at a column, where this is its pitch.
fn is_cantus_cell(cell: Cell, i: usize, pitch: Pitch) -> bool
    ensures { IsTrue result ↔ (cell ≡ cantus_cell i pitch) }
{
    match cell {
        Cell::Rest => false,
        Cell::Hold(p) => i % 8 != 0 && p == pitch,
        Cell::Start(p) => i % 8 == 0 && p == pitch,
    }
}

/// Whether a score has the cantus at a column.
fn has_cantus_at(ex: &Exercise, score: &Score, i: usize) -> bool
    requires place { i < length score.now.columns }
    requires bar { i / 8 < length ex.now.cantus }
    ensures { IsTrue result ↔ HasCantusAt ex.now score.now.columns i }
{
    let pitch = ex.cantus.as_slice()[i / 8];
    is_cantus_cell(score.cell(ex.cantus_voice as usize, i), i, pitch)
}

/// Whether a score has the cantus.
fn has_cantus(ex: &Exercise, score: &Score) -> bool
    requires { length score.now.columns ≤ 8 * length ex.now.cantus }
    ensures { IsTrue result ↔ HasCantus ex.now score.now.columns }
{
    for i in 0..score.len() {
        if !has_cantus_at(ex, score, i) {
            return false;
        }
    }
    true
}

/// Whether a score is complete and has the cantus.
fn is_given(ex: &Exercise, score: &Score) -> bool
    requires { length ex.now.cantus ≡ ex.now.bars }
    ensures { IsTrue result ↔ IsGiven ex.now score.now }
{
    if score.voices() != ex.voices || score.len() != 8 * ex.bars as usize {
        return false;
    }
    has_cantus(ex, score)
}
