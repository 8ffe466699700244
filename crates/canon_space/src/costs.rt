//! What a bar costs.

ghost use Rattle.std.specs.Prelude.{◌≡◌, ◌<◌, ◌≤◌, List, length};
ghost use Rattle.fux_grid.specs.declared.cell.Cell.{Cell as ACell};
ghost use Rattle.melody_rules.specs.Notes.{IsNotesOf};
ghost use Rattle.melody_rules.specs.Rows.{pitches};
ghost use Rattle.canon_space.specs.Kept.{history_of};
ghost use Rattle.canon_space.specs.Rules as rules;

use crate::bars::{Bar, bar_before};
use crate::canon::Canon;
use crate::pairs::is_inner;
use fux_grid::Cell;
use melody_rules::{VoiceNotes, leap_open_after, toll_of_move};
use motion_rules::sound_imperfect;
use penalty_sheet::{Sheet, toll_if, weight};
use rule_law::{move_alike, sound_perfect};

/// Q7 to Q10: what the move of a voice with these notes costs.
fn move_cost(sheet: &Sheet, notes: &VoiceNotes, now: Cell) -> u64
    ensures value { (cells : List ACell) → IsNotesOf cells notes.now →
        result ≡ rules.move_cost sheet.now (pitches cells) now }
    ensures bound { result ≤ 65535 }
{
    match toll_of_move(notes.last, now) {
        Some(toll) => u64::from(weight(sheet, toll)),
        None => 0,
    }
}

/// What a voice with these notes costs in the next bar.
pub fn voice_cost(sheet: &Sheet, notes: &VoiceNotes, now: Cell) -> u64
    ensures value { (cells : List ACell) → IsNotesOf cells notes.now →
        result ≡ rules.voice_cost sheet.now (pitches cells) now }
    ensures bound { result ≤ 131070 }
{
    move_cost(sheet, notes, now) + toll_if(sheet, 13, leap_open_after(notes, now))
}

/// Whether the bar after these bars and the three before it begin with imperfect intervals of so
/// many degrees.
fn four_sound(behind: &[Bar], now: &[Cell], degrees: u8) -> bool
    ensures { result ≡ rules.four_sound degrees (history_of behind.now) now.now }
{
    sound_imperfect(now, degrees, 0, 1)
        && sound_imperfect(bar_before(behind, 1), degrees, 0, 1)
        && sound_imperfect(bar_before(behind, 2), degrees, 0, 1)
        && sound_imperfect(bar_before(behind, 3), degrees, 0, 1)
}

/// Q14: whether, from the fourth bar on, all four begin with thirds, or with sixths.
fn keeps_on(behind: &[Bar], now: &[Cell]) -> bool
    ensures { result ≡ rules.keeps_on (history_of behind.now) now.now }
{
    behind.len() >= 3 && (four_sound(behind, now, 2) || four_sound(behind, now, 5))
}

/// What both voices cost in the bar after these bars.
pub fn pair_cost(canon: &Canon, sheet: &Sheet, behind: &[Bar], now: &[Cell]) -> u64
    requires { length behind.now < canon.now.bars }
    ensures value { result ≡ rules.pair_cost canon.now sheet.now (history_of behind.now) now.now }
    ensures bound { result ≤ 196605 }
{
    toll_if(
        sheet,
        1,
        is_inner(canon, behind) && sound_perfect(now, 0, 1),
    ) + toll_if(sheet, 11, move_alike(bar_before(behind, 1), now, 0, 1))
        + toll_if(sheet, 14, keeps_on(behind, now))
}
