//! The search for the best setting of an exercise.

ghost use Rattle.std.specs.Prelude.{IfErr, IfOk};
ghost use Rattle.fux_grid.specs.Exercises.{IsValid};
ghost use Rattle.fux_judge.specs.Lawful.{BoundsLawful};
ghost use Rattle.tree_search.specs.Outcomes.{IfFound};
ghost use Rattle.works.specs.Searched.{Finds, IsFirstPath, IsFound, IsFoundBy, IsFoundFor, IsFoundSharply, IsRaised, IsScoreAt, IsSpaceOf, StopsAtWidth};

use crate::refusal::Refusal;
use crate::work::Stop;
use cert_text::Form;
use fux_grid::{Exercise, Score};
use fux_pitch::Memory;
use penalty_sheet::Sheet;
use price_rounds::search_best;
use species_space::{SpeciesSpace, TableFault, score_of};
use std::alloc::Global;
use std::thread::Threads;
use tree_search::{Outcome, search_quest};

/// What a search comes to.
#[derive(Drop)]
pub enum Found {
    /// The best setting, and its penalty.
    Best { score: Score, penalty: u64 },
    /// No setting is lawful.
    Nothing,
    /// The budget is not enough. No lawful setting's penalty is below the bound.
    Spent { bound: u64 },
}

/// The best setting of an exercise over a sheet of weights, that there is none, or a bound.
pub fn best_setting<R: Threads + Sync>(
    rt: &R,
    alloc: Global,
    exercise: &Exercise,
    sheet: &Sheet,
    budget: u32,
) -> Result<Found, Stop>
    requires { IsValid exercise.now }
    ensures { Finds exercise.now (IsFound exercise.now sheet.now budget) result }
{
    let space = space_of(rt, alloc, exercise, sheet)?;
    Ok(search(alloc, &space, budget)?)
}

/// The same by sharper floors, which may need less of the budget.
pub fn sharp_setting<R: Threads + Sync>(
    rt: &R,
    alloc: Global,
    exercise: &Exercise,
    sheet: &Sheet,
    budget: u32,
) -> Result<Found, Stop>
    requires { IsValid exercise.now }
    ensures { Finds exercise.now (IsFoundSharply exercise.now sheet.now budget) result }
{
    let space = space_of(rt, alloc, exercise, sheet)?;
    Ok(search_sharply(alloc, &space, budget)?)
}

/// The space of the settings of an exercise, or a refusal of its first menu that is too wide.
pub fn space_of<'a, R: Threads + Sync>(
    rt: &R,
    alloc: Global,
    exercise: &'a Exercise<'a>,
    sheet: &'a Sheet,
) -> Result<SpeciesSpace<'a>, Stop>
    requires { IsValid exercise.now }
    ensures made { IfOk result (IsSpaceOf exercise.entry.now sheet.entry.now) }
    ensures stopped { IfErr result (StopsAtWidth exercise.entry.now) }
{
    match SpeciesSpace::new(rt, alloc, exercise, sheet) {
        Ok(space) => Ok(space),
        Err(TableFault::Memory) => Err(Stop::Memory),
        Err(TableFault::TooWide { place, count }) => {
            Err(Stop::Refused(Refusal::TooWide { place, count }))
        }
    }
}

/// Searches the settings of an exercise as a form of a certificate asks for: by sharper floors for
/// the third.
pub fn search_for(
    alloc: Global,
    space: &SpeciesSpace<'_>,
    budget: u32,
    form: Form,
) -> Result<Found, Memory>
    requires { IsValid space.now.exercise }
    ensures { IfOk result (IsFoundFor form space.now.exercise space.now.sheet budget) }
{
    match form {
        Form::First => search(alloc, space, budget),
        Form::Second => search(alloc, space, budget),
        Form::Third => search_sharply(alloc, space, budget),
    }
}

/// Searches the settings of an exercise.
fn search(alloc: Global, space: &SpeciesSpace<'_>, budget: u32) -> Result<Found, Memory>
    requires { IsValid space.now.exercise }
    ensures { IfOk result (IsFound space.now.exercise space.now.sheet budget) }
{
    let outcome = search_quest(alloc, space, budget)?;
    found_by(alloc, space, outcome)
}

/// Searches them by sharper floors.
fn search_sharply(alloc: Global, space: &SpeciesSpace<'_>, budget: u32) -> Result<Found, Memory>
    requires { IsValid space.now.exercise }
    ensures { IfOk result (IsFoundSharply space.now.exercise space.now.sheet budget) }
{
    match search_best(alloc, space, budget)? {
        Outcome::Spent { bound } => Ok(Found::Spent {
            bound: raised(alloc, space, budget, bound)?,
        }),
        ended => found_by(alloc, space, ended),
    }
}

/// A bound, or that of the search by the usual floors where it is greater.
fn raised(alloc: Global, space: &SpeciesSpace<'_>, budget: u32, bound: u64) -> Result<u64, Memory>
    requires valid { IsValid space.now.exercise }
    requires reached { BoundsLawful space.now.exercise space.now.sheet bound }
    ensures { IfOk result (IsRaised space.now.exercise space.now.sheet budget) }
{
    match search(alloc, space, budget)? {
        Found::Spent { bound: usual } => Ok(bound.max(usual)),
        _ => Ok(bound),
    }
}

/// What an outcome tells, with the setting where it has a path.
fn found_by(alloc: Global, space: &SpeciesSpace<'_>, outcome: Outcome) -> Result<Found, Memory>
    requires valid { IsValid space.now.exercise }
    requires first { IfFound outcome (IsFirstPath space.now) }
    ensures { IfOk result (IsFoundBy space.now outcome) }
{
    match outcome {
        Outcome::Found { path, value } => Ok(Found::Best {
            score: setting_at(alloc, space, path.as_slice(), value)?,
            penalty: value,
        }),
        Outcome::Nothing => Ok(Found::Nothing),
        Outcome::Spent { bound } => Ok(Found::Spent { bound }),
    }
}

/// The setting that a path leads to, where that is the first of the least.
fn setting_at(
    alloc: Global,
    space: &SpeciesSpace<'_>,
    path: &[u16],
    penalty: u64,
) -> Result<Score, Memory>
    requires valid { IsValid space.now.exercise }
    requires first { IsFirstPath space.now path.now penalty }
    ensures { IfOk result (IsScoreAt space.now path.now) }
{
    let _ = penalty;
    score_of(alloc, space, path)
}
