//! The lines that tell what a cantus pays.

ghost use Rattle.std.specs.Prelude.{◌≡◌, ◌++◌, IfOk, OnOk, string_bytes};
ghost use Rattle.cantus_space.specs.ChargeLines as words;
ghost use Rattle.cantus_space.specs.Charges.{sum_of};

use crate::charge::{Bill, CantusCharge, Penalty};
use fux_pitch::Memory;
use std::alloc::Global;
use std::fmt::Write;

/// Appends where a charge stands.
#[tactic(auto, unfolding(crate::specs::ChargeLines::place_words))]
fn put_place(out: &mut String, voice: u8, bar: Option<u8>) -> Result<(), Memory>
    ensures { OnOk result (string_bytes out.new ≡ string_bytes out.old ++ words.place_words voice
        bar) }
{
    match bar {
        Some(bar) => write!(out, "bar {bar} slot 0")?,
        None => write!(out, "voice {voice}")?,
    }
    Ok(())
}

/// Appends a penalty, by its letter and its number.
#[tactic(auto, unfolding(crate::specs::ChargeLines::penalty_words))]
fn put_penalty(out: &mut String, penalty: Penalty) -> Result<(), Memory>
    ensures { OnOk result (string_bytes out.new ≡ string_bytes out.old ++ words.penalty_words
        penalty) }
{
    match penalty {
        Penalty::Toll(number) => write!(out, " Q{number}")?,
        Penalty::Price(number) => write!(out, " C{number}")?,
    }
    Ok(())
}

/// Appends the line of a charge.
fn put_charge(out: &mut String, voice: u8, charge: CantusCharge) -> Result<(), Memory>
    ensures { OnOk result (string_bytes out.new ≡ string_bytes out.old ++ words.charge_line voice
        charge) }
{
    let CantusCharge { bar, penalty, cost } = charge;
    put_place(out, voice, bar)?;
    put_penalty(out, penalty)?;
    write!(out, " cost {cost}\n")?;
    Ok(())
}

/// Appends the lines of charges.
fn put_charges(out: &mut String, voice: u8, charges: &[CantusCharge]) -> Result<(), Memory>
    ensures { OnOk result (string_bytes out.new ≡ string_bytes out.old ++ words.charge_lines voice
        charges.now) }
{
    for charge in charges {
        put_charge(out, voice, *charge)?;
    }
    Ok(())
}

/// What the cantus of a voice pays, as text: a line for each charge, and then what they come to.
pub fn bill_text(alloc: Global, voice: u8, bill: &Bill) -> Result<String, Memory>
    requires { bill.now.penalty ≡ sum_of bill.now.charges.items }
    ensures { IfOk result (λ text. string_bytes text ≡ words.bill_text voice
        bill.now.charges.items) }
{
    let mut out = String::new(alloc);
    put_charges(&mut out, voice, bill.charges.as_slice())?;
    let penalty = bill.penalty;
    write!(out, "penalty {penalty}\n")?;
    Ok(out)
}
