//! A charge.

ghost use Rattle.std.specs.Prelude.{◌≡◌, ◌++◌, OnOk};
ghost use Rattle.cantus_space.specs.Charges.{charge_where};

use fux_pitch::Memory;

/// A penalty, by its number.
#[derive(Clone, Copy, Debug, PartialEq, Eq)]
pub enum Penalty {
    /// One that a free voice pays too: Q7 to Q10, Q13 or Q17 to Q20.
    Toll(u8),
    /// One of a cantus alone: C1 to C6.
    Price(u8),
}

/// One thing that a cantus pays for.
#[derive(Clone, Copy, Debug, PartialEq, Eq)]
pub struct CantusCharge {
    /// The bar whose note pays it, counted from 1, or none where it is paid for the whole line.
    pub bar: Option<u8>,
    pub penalty: Penalty,
    pub cost: u64,
}

/// All that a cantus pays, and what that comes to.
#[derive(Drop)]
pub struct Bill {
    pub charges: Vec<CantusCharge>,
    pub penalty: u64,
}

/// Appends a charge, where it costs something.
#[tactic(auto, unfolding(crate::specs::Charges::charge_where))]
pub fn put(
    charges: &mut Vec<CantusCharge>,
    bar: Option<u8>,
    penalty: Penalty,
    cost: u64,
) -> Result<(), Memory>
    ensures { OnOk result (charges.new.items ≡ charges.old.items ++ charge_where bar penalty
        cost) }
{
    if cost == 0 {
        return Ok(());
    }
    charges.push(CantusCharge { bar, penalty, cost })?;
    Ok(())
}
