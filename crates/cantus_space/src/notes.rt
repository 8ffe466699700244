//! What a new pitch does to what is kept of those before it.

ghost use Rattle.std.specs.Prelude.{◌≡◌, ◌==◌, ◌&&◌, ◌||◌, ◌≤◌, ℕ, List, count_by, length};
ghost use Rattle.std.specs.List.{list_any};
ghost use Rattle.fux_grid.specs.declared.cell.Cell.{Cell as ACell};
ghost use Rattle.fux_pitch.specs.Pitch.{same_pitch};
ghost use Rattle.melody_rules.specs.Notes.{IsNotesOf};
ghost use Rattle.melody_rules.specs.Rows.{pitches};
ghost use Rattle.rule_law.specs.Voices.{has_rule};
ghost use Rattle.cantus_space.specs.Rules as rules;

use fux_grid::Cell;
use fux_pitch::Pitch;
use melody_rules::{VoiceNotes, breaks_after, moves_unmelodically};
use rule_law::RuleSet;

/// Whether a rule is broken by the next pitch after these notes.
pub fn breaks_some_rule(notes: &VoiceNotes, pitch: Pitch) -> bool
    ensures { (cells : List ACell) → IsNotesOf cells notes.now →
        result ≡ rules.breaks_some_rule (pitches cells) pitch }
{
    let now = Cell::Start(pitch);
    moves_unmelodically(notes.last, now)
        || breaks_after(6, notes, now)
        || breaks_after(7, notes, now)
        || breaks_after(8, notes, now)
        || breaks_after(9, notes, now)
}

/// How many of the pitches are this one.
pub fn times_struck(struck: &[Pitch], pitch: Pitch) -> usize
    requires { length struck.now ≤ 24 }
    ensures { result ≡ count_by (same_pitch pitch) struck.now }
{
    let mut count = 0;
    for other in struck {
        if pitch == *other {
            count += 1;
        }
    }
    count
}

/// These rules, and those of S4 and S6 to S9 that the next pitch breaks after these notes.
pub fn broken_after(broken: RuleSet, notes: &VoiceNotes, pitch: Pitch) -> RuleSet
    ensures { (cells : List ACell) → IsNotesOf cells notes.now → (rule : ℕ) →
        has_rule result.bits rule ≡ (has_rule broken.bits rule
        || list_any (λ read. rules.breaks (pitches cells) pitch read && rule == read) rules.rules) }
{
    let now = Cell::Start(pitch);
    broken
        .with(4, moves_unmelodically(notes.last, now))
        .with(6, breaks_after(6, notes, now))
        .with(7, breaks_after(7, notes, now))
        .with(8, breaks_after(8, notes, now))
        .with(9, breaks_after(9, notes, now))
}
