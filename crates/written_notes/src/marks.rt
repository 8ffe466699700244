//! Marks at written notes.

ghost use Rattle.std.specs.Prelude.{◌≡◌, ◌<◌, ◌≤◌, ◌+◌, ◌++◌, ◌∷◌, [], if◌then◌else◌};
ghost use Rattle.arrayvec.specs.ArrayVec.{array_vec_len};
ghost use Rattle.written_notes.specs.Marks.{has_voice as voice_in, is_at, is_red as red_at, is_topped, rules_at as rules_there, shows_rule};

use crate::bar::Written;
use arrayvec::ArrayVec;
use fux_grid::VoiceSet;

/// A broken rule at a place and for a set of voices, as a sheet shows it.
#[derive(Clone, Copy, Debug, PartialEq, Eq)]
pub struct SheetMark {
    /// Counted from 1.
    pub bar: u8,
    /// From 0 to 7.
    pub slot: u8,
    /// The number of the rule.
    pub rule: u8,
    pub voices: VoiceSet,
}

/// A written note or rest of a sheet: its voice, its bar, counted from 1, and what is written.
#[derive(Clone, Copy, Debug, PartialEq, Eq)]
pub struct Spot {
    pub voice: u8,
    pub bar: u8,
    pub note: Written,
}

/// Whether a voice is in a set.
pub fn has_voice(set: VoiceSet, v: u8) -> bool
    requires { v < 8 }
    ensures { result ≡ voice_in set.bits v }
{
    let bits = set.bits;
    (bits >> v) & 1 == 1
}

/// Whether a voice is the highest of a set.
fn is_top(set: VoiceSet, v: u8) -> bool
    requires { v < 8 }
    ensures { result ≡ is_topped set.bits v }
{
    let bits = set.bits;
    bits >> v == 1
}

/// Whether a mark's place is within a written note.
fn is_at(mark: &SheetMark, bar: u8, note: &Written) -> bool
    ensures { result ≡ is_at mark.now bar note.now }
{
    let end = u16::from(note.slot) + u16::from(note.slots);
    mark.bar == bar && note.slot <= mark.slot && u16::from(mark.slot) < end
}

/// Whether a written note is red: a mark at its place has its voice.
pub fn is_red(marks: &[SheetMark], spot: &Spot) -> bool
    requires { spot.now.voice < 8 }
    ensures { result ≡ red_at marks.now spot.now }
{
    marks.iter().any(|mark| is_at(mark, spot.bar, &spot.note) && has_voice(mark.voices, spot.voice))
}

/// Whether a rule is shown at a written note: a mark of this rule at its place has its voice as its
/// highest.
fn shows_rule(marks: &[SheetMark], spot: &Spot, rule: u8) -> bool
    requires { spot.now.voice < 8 }
    ensures { result ≡ shows_rule marks.now spot.now rule }
{
    marks.iter().any(|mark| {
        mark.rule == rule && is_at(mark, spot.bar, &spot.note) && is_top(mark.voices, spot.voice)
    })
}

/// Appends a rule, where it is shown.
fn put_rule(rules: &mut ArrayVec<u8, 33>, rule: u8, shown: bool)
    requires { array_vec_len rules.old < 33 }
    ensures items { rules.new.items ≡ rules.old.items ++ (if shown then rule ∷ [] else []) }
    ensures few { array_vec_len rules.new ≤ array_vec_len rules.old + 1 }
{
    if shown {
        rules.push(rule);
    }
}

/// The rules that are shown at a written note, each once, in ascending order.
pub fn rules_at(marks: &[SheetMark], spot: &Spot) -> ArrayVec<u8, 33>
    requires { spot.now.voice < 8 }
    ensures { result.items ≡ rules_there marks.now spot.now }
{
    let mut rules = ArrayVec::new();
    for rule in 1..34 {
        let shown = shows_rule(marks, spot, rule);
        put_rule(&mut rules, rule, shown);
    }
    rules
}
