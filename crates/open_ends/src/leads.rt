//! Which voices may still show their cadence.

ghost use Rattle.std.specs.Prelude.{◌≡◌, ◌<◌};
ghost use Rattle.rhythm_cadence.specs.Rows.{holds_of_pitch};
ghost use Rattle.open_ends.specs.Leads as words;

use crate::asked::is_asked;
use fux_grid::{Cell, Exercise, cell_of, slot_of, species_of};
use fux_pitch::{Pitch, final_letter};
use rhythm_cadence::{begins_last_bar, has_suspension, is_final, is_suspended, leading_slot};
use rule_law::{begins_bar, is_leading};

/// Whether S22 is asked.
pub(crate) fn is_read(ex: &Exercise) -> bool
    ensures { result ≡ words.is_read ex.now }
{
    is_asked(ex, 22)
}

/// Whether the column is in the last bar but one.
fn is_before_last(ex: &Exercise, i: usize) -> bool
    ensures { result ≡ words.is_before_last ex.now i }
{
    i / 8 + 2 == ex.bars as usize
}

/// Whether there is a pitch, and it has the letter of the mode's final.
fn has_final_letter(ex: &Exercise, pitch: Option<Pitch>) -> bool
    ensures { result ≡ holds_of_pitch (words.has_final_letter ex.now) pitch }
{
    match pitch {
        Some(p) => p.degree() % 7 == final_letter(ex.mode),
        None => false,
    }
}

/// Whether a voice holds a suspension from which the leading note may come.
fn is_prepared(ex: &Exercise, now: &[Cell], v: u8) -> bool
    ensures { result ≡ words.is_prepared ex.now now.now v }
{
    let cell = cell_of(now, v as usize);
    cell.is_hold() && has_final_letter(ex, cell.pitch()) && is_suspended(ex, now, v)
}

/// Whether a voice that is there may come to its cadence from the beginning of the bar.
fn begins_well(ex: &Exercise, now: &[Cell], v: u8) -> bool
    ensures { result ≡ words.begins_well ex.now now.now v }
{
    v < ex.voices && (!has_suspension(species_of(ex, v)) || is_prepared(ex, now, v))
}

/// Whether the leading note starts in the cell.
fn starts_lead(ex: &Exercise, cell: Cell) -> bool
    ensures { result ≡ words.starts_lead ex.now cell }
{
    match cell {
        Cell::Start(p) => is_leading(ex.mode, p),
        _ => false,
    }
}

/// Whether the cell of a voice at column `i` leaves room for the leading note, is its beginning, or
/// holds it.
fn leads_on(ex: &Exercise, i: usize, now: &[Cell], v: u8) -> bool
    ensures { result ≡ words.leads_on ex.now i now.now v }
{
    let (slot, lead) = (slot_of(i), leading_slot(species_of(ex, v)));
    let cell = cell_of(now, v as usize);
    if slot < lead {
        return true;
    }
    if slot == lead {
        starts_lead(ex, cell)
    } else {
        cell.is_hold()
    }
}

/// Whether a voice is among those that may.
fn is_kept(kept: &[bool; 4], v: u8) -> bool
    ensures { result ≡ words.is_kept kept.now v }
{
    let kept = &kept[..];
    v < 4 && kept[v as usize]
}

/// Whether a voice may show its cadence after column `i` of the last bar but one.
fn may_show(ex: &Exercise, i: usize, kept: &[bool; 4], now: &[Cell], v: u8) -> bool
    ensures { result ≡ words.may_show ex.now i kept.now now.now v }
{
    let so_far = if begins_bar(i) {
        begins_well(ex, now, v)
    } else {
        is_kept(kept, v)
    };
    so_far && leads_on(ex, i, now, v)
}

/// Which voices may after column `i`, where these might before it.
pub(crate) fn leads_after(ex: &Exercise, i: usize, kept: &[bool; 4], now: &[Cell]) -> [bool; 4]
    ensures { result ≡ words.leads_after ex.now i kept.now now.now }
{
    if !is_before_last(ex, i) {
        return [false; 4];
    }
    [
        may_show(ex, i, kept, now, 0),
        may_show(ex, i, kept, now, 1),
        may_show(ex, i, kept, now, 2),
        may_show(ex, i, kept, now, 3),
    ]
}

/// Whether a voice that may show its cadence starts the final.
fn ends_on_final(ex: &Exercise, kept: &[bool; 4], now: &[Cell], v: u8) -> bool
    ensures { result ≡ words.ends_on_final ex.now kept.now now.now v }
{
    if !is_kept(kept, v) {
        return false;
    }
    match cell_of(now, v as usize) {
        Cell::Start(p) => is_final(ex, p),
        _ => false,
    }
}

/// Whether some voice does.
fn some_ends(ex: &Exercise, kept: &[bool; 4], now: &[Cell]) -> bool
    ensures { result ≡ words.some_ends ex.now kept.now now.now }
{
    ends_on_final(ex, kept, now, 0)
        || ends_on_final(ex, kept, now, 1)
        || ends_on_final(ex, kept, now, 2)
        || ends_on_final(ex, kept, now, 3)
}

/// Whether some voice may show its cadence.
fn has_some(leads: &[bool; 4]) -> bool
    ensures { result ≡ words.has_some leads.now }
{
    leads.iter().any(|may| *may)
}

/// Whether a column of the last bar but one leaves no voice that may.
fn leaves_none(ex: &Exercise, i: usize, kept: &[bool; 4], now: &[Cell]) -> bool
    ensures { result ≡ words.leaves_none ex.now i kept.now now.now }
{
    is_before_last(ex, i) && !has_some(&leads_after(ex, i, kept, now))
}

/// Whether after column `i` no setting shows a cadence.
pub(crate) fn lacks_all(ex: &Exercise, i: usize, kept: &[bool; 4], now: &[Cell]) -> bool
    ensures { result ≡ words.lacks_all ex.now i kept.now now.now }
{
    leaves_none(ex, i, kept, now) || (begins_last_bar(ex, i) && !some_ends(ex, kept, now))
}
