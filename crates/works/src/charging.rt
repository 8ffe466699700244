//! The command `weigh`.

ghost use Rattle.std.specs.Prelude.{◌≡◌, ◌++◌, IfOk, IfSome, OnOk, string_bytes};
ghost use Rattle.fux_grid.specs.Exercises.{IsComplete, IsValid};
ghost use Rattle.fux_judge.specs.Penalties as penalties;
ghost use Rattle.species_space.specs.Mixed.{IsMixed, exercise_of};
ghost use Rattle.works.specs.Charged.{IsWeighed, Weighs, against_line, charges_verdict, difference_line};
ghost use Rattle.works.specs.Works.{Answers};

use crate::refusal::Refusal;
use crate::searching::{Found, sharp_setting};
use crate::work::{Output, Stop, Verdict};
use fux_grid::{Exercise, Score, mixed_as};
use fux_judge::penalty;
use fux_pitch::Memory;
use penalty_sheet::Sheet;
use score_marker::{Charge, charges, count_marks, weighing_text};
use species_space::Mixed;
use std::alloc::Global;
use std::fmt::Write;
use std::thread::Threads;

/// What a setting breaks and pays for.
#[derive(Drop)]
pub struct Weighed {
    /// Unfavorable where it breaks a rule.
    verdict: Verdict,
    penalty: u64,
    /// A line for each charge, its penalty, and how many rules it breaks.
    text: String,
}

/// What charges say, all in all: they are favorable where no rule is broken.
fn verdict_of(charges: &[Charge]) -> Verdict
    ensures { result ≡ charges_verdict charges.now }
{
    if count_marks(charges) > 0 {
        Verdict::Unfavorable
    } else {
        Verdict::Favorable
    }
}

/// The penalty of a complete score.
pub fn penalty_of(rules: &Exercise, sheet: &Sheet, score: &Score) -> u64
    requires valid { IsValid rules.now }
    requires complete { IsComplete rules.now score.now }
    ensures { result ≡ penalties.penalty_of rules.now sheet.now score.now.columns }
{
    match penalty(rules, sheet, score) {
        Some(penalty) => penalty,
        None => unreachable!(),
    }
}

/// What a complete score breaks and pays for by the rules of an exercise.
fn weigh_score(
    alloc: Global,
    rules: &Exercise,
    sheet: &Sheet,
    score: &Score,
) -> Result<Weighed, Memory>
    requires valid { IsValid rules.now }
    requires complete { IsComplete rules.now score.now }
    ensures { IfOk result (IsWeighed rules.now sheet.now score.now) }
{
    let charges = charges(alloc, rules, sheet, score)?;
    let penalty = penalty_of(rules, sheet, score);
    Ok(Weighed {
        verdict: verdict_of(charges.as_slice()),
        penalty,
        text: weighing_text(alloc, rules, penalty, charges.as_slice())?,
    })
}

/// Appends the line that sets a penalty beside the best.
fn put_difference(out: &mut String, penalty: u64, best: u64) -> Result<(), Memory>
    ensures { OnOk result (string_bytes out.new ≡ string_bytes out.old ++ difference_line penalty
        best) }
{
    if best <= penalty {
        let more = penalty - best;
        write!(out, "best {best}, {more} more\n")?;
    } else {
        let less = best - penalty;
        write!(out, "best {best}, {less} less\n")?;
    }
    Ok(())
}

/// Appends the line that sets a penalty beside what was found.
fn put_against(out: &mut String, penalty: u64, found: &Found) -> Result<(), Memory>
    ensures { OnOk result (string_bytes out.new ≡ string_bytes out.old ++ against_line penalty
        found.now) }
{
    match found {
        Found::Best { penalty: best, .. } => put_difference(out, penalty, *best)?,
        Found::Nothing => out.push_str("best none\n")?,
        Found::Spent { bound } => write!(out, "best at least {bound}\n")?,
    }
    Ok(())
}

/// What is written of a weighed setting. It takes no memory.
fn output_of(weighed: Weighed) -> Output
    ensures { result ≡ record { verdict = weighed.verdict; bytes = string_bytes weighed.text } }
{
    Output::of_text(weighed.verdict, weighed.text)
}

/// What is written of a weighed setting beside what was found.
fn output_beside(mut weighed: Weighed, found: &Found) -> Result<Output, Memory>
    ensures { IfOk result (λ output. output ≡ record {
      verdict = weighed.verdict;
      bytes = string_bytes weighed.text ++ against_line weighed.penalty found.now;
    }) }
{
    put_against(&mut weighed.text, weighed.penalty, found)?;
    Ok(output_of(weighed))
}

/// What the setting of an exercise breaks and pays for by some rules, over a sheet of weights; and
/// how far its penalty is from the best by them, where there is a budget to search for it.
pub fn weigh<'e, R: Threads + Sync>(
    rt: &R,
    alloc: Global,
    ex: &Exercise<'e>,
    rules: &Exercise<'e>,
    sheet: &Sheet,
    against: Option<u32>,
) -> Result<Output, Stop>
    requires valid { IsValid rules.now }
    requires complete { IfSome ex.now.setting (IsComplete rules.now) }
    ensures { Answers (Weighs against sheet.now ex.now rules.now) result }
{
    let Some(score) = &ex.setting else {
        return Err(Stop::Refused(Refusal::NoSetting));
    };
    let weighed = weigh_score(alloc, rules, sheet, score)?;
    let Some(budget) = against else {
        return Ok(output_of(weighed));
    };
    let found = sharp_setting(rt, alloc, rules, sheet, budget)?;
    Ok(output_beside(weighed, &found)?)
}

/// What the setting of an exercise breaks and pays for by the rules of the mixed one, over a sheet
/// of weights; and how far its penalty is from the best by them, where there is a budget to search
/// for it.
pub fn weigh_mixed<R: Threads + Sync>(
    rt: &R,
    alloc: Global,
    m: &Mixed<'_>,
    sheet: &Sheet,
    against: Option<u32>,
) -> Result<Output, Stop>
    requires { IsMixed m.now }
    ensures { Answers (Weighs against sheet.now m.now.ex.now (exercise_of m.now)) result }
{
    let rules = mixed_as(m.ex, m.species);
    weigh(rt, alloc, m.ex, &rules, sheet, against)
}
