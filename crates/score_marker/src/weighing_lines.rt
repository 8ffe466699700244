//! The lines that tell what a setting breaks and pays for.

ghost use Rattle.std.specs.Prelude.{◌≡◌, ◌++◌, IfOk, OnOk, length, string_bytes};
ghost use Rattle.score_marker.specs.Charges.{mark_in, marks_in};
ghost use Rattle.score_marker.specs.ChargeLines as words;
ghost use Rattle.score_marker.specs.ChargeLines.{charge_line, charge_lines, line_line, toll_line};

use crate::charge::{Charge, LineCharge, TollCharge};
use crate::mark_lines::{put_count, put_mark};
use fux_grid::Exercise;
use fux_pitch::Memory;
use penalty_sheet::price_at;
use std::alloc::Global;
use std::fmt::Write;

/// Appends the line of a toll at a place.
#[tactic(auto, unfolding(crate::specs::ChargeLines::toll_line))]
fn put_toll(out: &mut String, charge: TollCharge) -> Result<(), Memory>
    ensures { OnOk result (string_bytes out.new ≡ string_bytes out.old ++ toll_line charge) }
{
    let TollCharge {
        bar,
        slot,
        toll,
        cost,
    } = charge;
    write!(out, "bar {bar} slot {slot} Q{toll} cost {cost}\n")?;
    Ok(())
}

/// Appends the line of a gauge over a voice's line.
#[tactic(auto, unfolding(crate::specs::ChargeLines::line_line))]
fn put_line(out: &mut String, charge: LineCharge) -> Result<(), Memory>
    ensures { OnOk result (string_bytes out.new ≡ string_bytes out.old ++ line_line charge) }
{
    let LineCharge { voice, gauge, cost } = charge;
    write!(out, "voice {voice} Q{gauge} cost {cost}\n")?;
    Ok(())
}

/// Appends the line of a charge.
fn put_charge(out: &mut String, ex: &Exercise, charge: Charge) -> Result<(), Memory>
    ensures { OnOk result (string_bytes out.new ≡ string_bytes out.old ++ charge_line ex.now
        charge) }
{
    match charge {
        Charge::Broken(mark) => put_mark(
            out,
            price_at(ex, mark.rule, mark.voices, mark.bar),
            &mark,
        ),
        Charge::Toll(toll) => put_toll(out, toll),
        Charge::Line(line) => put_line(out, line),
    }
}

/// Appends the lines of charges.
fn put_charges(out: &mut String, ex: &Exercise, charges: &[Charge]) -> Result<(), Memory>
    ensures { OnOk result (string_bytes out.new ≡ string_bytes out.old ++ charge_lines ex.now
        charges.now) }
{
    for charge in charges {
        put_charge(out, ex, *charge)?;
    }
    Ok(())
}

/// One where a charge is a broken rule, else nothing.
fn mark_count(charge: Charge) -> usize
    ensures { result ≡ length (mark_in charge) }
{
    match charge {
        Charge::Broken(_) => 1,
        Charge::Toll(_) => 0,
        Charge::Line(_) => 0,
    }
}

/// How many broken rules are among charges.
pub fn count_marks(charges: &[Charge]) -> usize
    ensures { result ≡ length (marks_in charges.now) }
{
    let mut count = 0;
    for charge in charges {
        count += mark_count(*charge);
    }
    count
}

/// What a setting of this exercise breaks and pays for, as text: a line for each charge, then its
/// penalty, and how many rules it breaks.
pub fn weighing_text(
    alloc: Global,
    ex: &Exercise,
    penalty: u64,
    charges: &[Charge],
) -> Result<String, Memory>
    ensures { IfOk result (λ text. string_bytes text ≡ words.weighing_text ex.now penalty
        charges.now) }
{
    let mut out = String::new(alloc);
    put_charges(&mut out, ex, charges)?;
    write!(out, "penalty {penalty}\n")?;
    put_count(&mut out, count_marks(charges))?;
    Ok(out)
}
