//! What a cantus pays note by note.

ghost use Rattle.std.specs.Prelude.{◌≡◌, ◌≤◌, ◌++◌, ◌∷◌, List, OnOk};
ghost use Rattle.fux_pitch.specs.declared.pitch.Pitch.{Pitch as APitch};
ghost use Rattle.fux_grid.specs.declared.cell.Cell.{Cell as ACell};
ghost use Rattle.fux_grid.specs.declared.cell.Cell.TheVariants.{Start};
ghost use Rattle.melody_rules.specs.Notes.{IsNotesOf};
ghost use Rattle.melody_rules.specs.Rows.{pays_move, pitches};
ghost use Rattle.cantus_space.specs.Nodes.{HasPitches};
ghost use Rattle.cantus_space.specs.Charges as words;

use crate::charge::{CantusCharge, Penalty, put};
use crate::melody::{is_altered, is_the, leaves_leap, price_if};
use crate::node::CantusNode;
use crate::plan::CantusPlan;
use crate::prices::{CantusPrices, price};
use fux_grid::Cell;
use fux_pitch::{Memory, Pitch};
use melody_rules::{VoiceNotes, leap_open_after, toll_of_move};
use penalty_sheet::{Sheet, toll_if};

/// Whether one of Q7 to Q10 stands for the move to the next pitch.
fn stands_for(toll: u8, last: Option<Pitch>, pitch: Pitch) -> bool
    requires first { 7 ≤ toll }
    requires last { toll ≤ 10 }
    ensures { result ≡ pays_move toll last (Start pitch) }
{
    match toll_of_move(last, Cell::Start(pitch)) {
        Some(paid) => toll == paid,
        None => false,
    }
}

/// Appends one of Q7 to Q10.
fn put_move(
    charges: &mut Vec<CantusCharge>,
    sheet: &Sheet,
    bar: u8,
    last: Option<Pitch>,
    pitch: Pitch,
    toll: u8,
) -> Result<(), Memory>
    requires first { 7 ≤ toll }
    requires last { toll ≤ 10 }
    ensures { OnOk result (charges.new.items ≡ charges.old.items ++ words.move_charge sheet.now bar
        last pitch toll) }
{
    let cost = toll_if(sheet, toll, stands_for(toll, last, pitch));
    put(charges, Some(bar), Penalty::Toll(toll), cost)
}

/// Appends Q7 to Q10.
fn put_moves(
    charges: &mut Vec<CantusCharge>,
    sheet: &Sheet,
    bar: u8,
    last: Option<Pitch>,
    pitch: Pitch,
) -> Result<(), Memory>
    ensures { OnOk result (charges.new.items ≡ charges.old.items ++ words.move_charges sheet.now bar
        last pitch) }
{
    put_move(charges, sheet, bar, last, pitch, 7)?;
    put_move(charges, sheet, bar, last, pitch, 8)?;
    put_move(charges, sheet, bar, last, pitch, 9)?;
    put_move(charges, sheet, bar, last, pitch, 10)
}

/// Appends Q13.
fn put_open(
    charges: &mut Vec<CantusCharge>,
    sheet: &Sheet,
    bar: u8,
    notes: &VoiceNotes,
    pitch: Pitch,
) -> Result<(), Memory>
    ensures { (cells : List ACell) → IsNotesOf cells notes.now → OnOk result (charges.new.items
        ≡ charges.old.items ++ words.open_charge sheet.now bar (pitches cells) pitch) }
{
    let stands = leap_open_after(notes, Cell::Start(pitch));
    put(
        charges,
        Some(bar),
        Penalty::Toll(13),
        toll_if(sheet, 13, stands),
    )
}

/// Appends one of C1, C3, C5 and C6, where it stands.
fn put_price(
    charges: &mut Vec<CantusCharge>,
    prices: &CantusPrices,
    bar: u8,
    row: u8,
    stands: bool,
) -> Result<(), Memory>
    requires first { 1 ≤ row }
    requires last { row ≤ 6 }
    ensures { OnOk result (charges.new.items ≡ charges.old.items ++ words.price_charge prices.now
        bar row stands) }
{
    let cost = price_if(stands, price(prices, row));
    put(charges, Some(bar), Penalty::Price(row), cost)
}

/// Appends C1, C3, C5 and C6, with so many moves on end one way up to a pitch, and the two pitches
/// before it.
fn put_prices(
    charges: &mut Vec<CantusCharge>,
    prices: &CantusPrices,
    bar: u8,
    moves: u8,
    before: Option<Pitch>,
    last: Option<Pitch>,
    pitch: Pitch,
) -> Result<(), Memory>
    ensures { OnOk result (charges.new.items ≡ charges.old.items ++ words.price_charges prices.now
        bar moves before last pitch) }
{
    put_price(charges, prices, bar, 1, moves >= 4)?;
    put_price(charges, prices, bar, 3, leaves_leap(before, last, pitch))?;
    put_price(charges, prices, bar, 5, is_altered(pitch))?;
    put_price(charges, prices, bar, 6, is_the(before, pitch))
}

/// Appends what is paid with the pitch by which a node has one more than the node before.
pub fn put_note(
    charges: &mut Vec<CantusCharge>,
    plan: &CantusPlan,
    node: &CantusNode,
    next: &CantusNode,
    pitch: Pitch,
) -> Result<(), Memory>
    requires { next.now.len ≤ 24 }
    ensures { (behind : List APitch) → HasPitches behind node.now
        → HasPitches (pitch ∷ behind) next.now → OnOk result (charges.new.items
        ≡ charges.old.items ++ words.note_charges plan.now.sheet plan.now.prices behind pitch) }
{
    let bar = next.len as u8;
    let VoiceNotes { before, last, .. } = node.notes;
    put_moves(charges, &plan.sheet, bar, last, pitch)?;
    put_open(charges, &plan.sheet, bar, &node.notes, pitch)?;
    put_prices(charges, &plan.prices, bar, next.moves, before, last, pitch)
}
