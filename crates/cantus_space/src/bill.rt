//! All that a cantus pays.

ghost use Rattle.std.specs.Prelude.{◌≡◌, ◌≤◌, IfOk, length};
ghost use Rattle.cantus_space.specs.Charges.{IsBillOf};

use crate::charge::Bill;
use crate::note_charges::put_note;
use crate::prices::CantusPrices;
use crate::space::CantusSpace;
use crate::whole::put_line;
use fux_pitch::{Memory, Mode, Pitch};
use penalty_sheet::Sheet;
use std::alloc::Global;

/// What a cantus pays by a sheet and by prices, from the first bar on and then as a whole line. It
/// needn't be lawful.
pub fn bill_of(
    alloc: Global,
    sheet: &Sheet,
    prices: &CantusPrices,
    cantus: &[Pitch],
) -> Result<Bill, Memory>
    requires fewest { 3 ≤ length cantus.now }
    requires most { length cantus.now ≤ 24 }
    ensures { IfOk result (IsBillOf sheet.now prices.now cantus.now) }
{
    // No charge goes by the mode and the range.
    let end = cantus[0];
    let space = CantusSpace::new(Mode::Dorian, cantus.len() as u8, end, end, sheet, prices);
    let mut charges = Vec::new(alloc);
    let mut node = space.no_pitches();
    for i in 0..cantus.len() {
        let pitch = cantus[i];
        let next = space.longer(&node, pitch);
        put_note(&mut charges, space.plan(), &node, &next, pitch)?;
        node = next;
    }
    put_line(&mut charges, space.plan(), &node)?;
    let penalty = space.floor(&node);
    Ok(Bill { charges, penalty })
}
