//! What a cantus costs.

ghost use Rattle.std.specs.Prelude.{◌≡◌, ◌*◌, ◌≤◌, List};
ghost use Rattle.fux_grid.specs.declared.cell.Cell.{Cell as ACell};
ghost use Rattle.melody_rules.specs.Notes.{IsNotesOf};
ghost use Rattle.fux_grid.specs.declared.cell.Cell.TheVariants.{Start};
ghost use Rattle.melody_rules.specs.Rows.{leaves_open, pitches};
ghost use Rattle.penalty_sheet.specs.Weights.{greatest_toll, weight_of, charge};
ghost use Rattle.cantus_space.specs.Rules as rules;

use fux_grid::Cell;
use fux_pitch::Pitch;
use melody_rules::{VoiceNotes, leap_open_after, toll_of_move};
use penalty_sheet::{Sheet, toll_if, weight};

/// Q7 to Q10: what the move to the next pitch costs.
fn move_cost(sheet: &Sheet, notes: &VoiceNotes, pitch: Pitch) -> u64
    ensures value { (cells : List ACell) → IsNotesOf cells notes.now →
        result ≡ rules.move_cost sheet.now (pitches cells) pitch }
    ensures bound { result ≤ 65535 }
{
    match toll_of_move(notes.last, Cell::Start(pitch)) {
        Some(toll) => u64::from(weight(sheet, toll)),
        None => 0,
    }
}

/// Q13: what it costs that a leap is left open.
fn open_cost(sheet: &Sheet, notes: &VoiceNotes, pitch: Pitch) -> u64
    ensures value { (cells : List ACell) → IsNotesOf cells notes.now →
        result ≡ charge sheet.now 13 (leaves_open (pitches cells) (Start pitch)) }
    ensures bound { result ≤ 65535 }
{
    toll_if(sheet, 13, leap_open_after(notes, Cell::Start(pitch)))
}

/// What the next pitch costs after these notes.
pub fn note_cost(sheet: &Sheet, notes: &VoiceNotes, pitch: Pitch) -> u64
    ensures value { (cells : List ACell) → IsNotesOf cells notes.now →
        result ≡ rules.note_cost sheet.now (pitches cells) pitch }
    ensures bound { result ≤ 131070 }
{
    move_cost(sheet, notes, pitch) + open_cost(sheet, notes, pitch)
}

/// What the gauges say.
#[derive(Clone, Copy, Debug, PartialEq, Eq)]
pub struct Gauged {
    pub climax: u32,
    pub compass: u32,
    pub leaps: u32,
    pub strikes: u32,
}

/// What a gauge costs that says so much.
fn gauge_charge(sheet: &Sheet, toll: u8, value: u32) -> u64
    requires first { 17 ≤ toll }
    requires last { toll ≤ greatest_toll }
    requires little { value ≤ 1000 }
    ensures value { result ≡ weight_of sheet.now toll * value }
    ensures bound { result ≤ 65535000 }
{
    u64::from(weight(sheet, toll)) * u64::from(value)
}

/// What the gauges cost.
pub fn gauge_cost(sheet: &Sheet, said: Gauged) -> u64
    requires climax { said.climax ≤ 1000 }
    requires compass { said.compass ≤ 1000 }
    requires leaps { said.leaps ≤ 1000 }
    requires strikes { said.strikes ≤ 1000 }
    ensures value { result ≡ rules.gauge_cost sheet.now said.climax said.compass said.leaps
        said.strikes }
    ensures bound { result ≤ 262140000 }
{
    gauge_charge(sheet, 17, said.climax)
        + gauge_charge(sheet, 18, said.compass)
        + gauge_charge(sheet, 19, said.leaps)
        + gauge_charge(sheet, 20, said.strikes)
}
