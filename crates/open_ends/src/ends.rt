//! All that waits behind a column, and what the column pays.

ghost use Rattle.std.specs.Prelude.{◌≡◌, ◌<◌, ◌≤◌, ◌^◌, IfSome};
ghost use Rattle.fux_grid.specs.Exercises.{IsValid};
ghost use Rattle.fux_grid.specs.declared.exercise.Exercise.{Exercise};
ghost use Rattle.penalty_sheet.specs.declared.sheet.Sheet.{Sheet};
ghost use Rattle.open_ends.specs.declared.keeps.Keeps.{Keeps};
ghost use Rattle.open_ends.specs.Ends.{LeadsThrough};
ghost use Rattle.open_ends.specs.Ends as words;

use crate::both::Both;
use crate::cadences::OpenCadences;
use crate::keeps::Keeps;
use crate::ligatures::OpenLigature;
use crate::notes::OpenTurns;
use crate::parallels::OpenParallels;
use crate::part::OpenPart;
use crate::passing::OpenPassing;
use crate::runs::{OpenRuns, runs_paid};
use crate::shapes::OpenShapes;
use crate::suspensions::OpenSuspensions;
use fux_grid::{Cell, Exercise};
use penalty_sheet::Sheet;

/// What rules wait for.
pub type OpenRules = Both<
    OpenPassing,
    Both<
        OpenLigature,
        Both<OpenShapes, Both<OpenParallels, Both<OpenSuspensions, Both<OpenCadences, OpenTurns>>>>,
    >,
>;

/// What rules and tolls wait for.
pub type OpenEnds = Both<OpenRules, OpenRuns>;

/// What waits behind a column, and what the tolls that are followed cost there, by weight; none
/// where no lawful setting goes on so.
pub fn ends_after(
    ex: &Exercise,
    sheet: &Sheet,
    keeps: Keeps,
    i: usize,
    kept: &OpenEnds,
    before: &[Cell],
    now: &[Cell],
) -> Option<(OpenEnds, u32)>
    requires { i < 2040 }
    ensures value { result ≡ words.ends_after ex.now sheet.now keeps i kept.now before.now now.now }
    ensures bound { IfSome result (λ step. step.1 ≤ 2 ^ 20) }
{
    let ends = OpenEnds::after(ex, keeps, i, kept, before, now)?;
    Some((ends, runs_paid(sheet, i, &kept.second, now)))
}

/// From prefix to prefix of a lawful setting no step is refused, each leads to what is kept behind
/// its column, and what it costs is paid by that column beside what this one and the one before
/// cost by themselves: a theorem, which costs nothing when it's called.
pub fn lawful_steps_lead_on()
    ensures { (ex : Exercise) (sheet : Sheet) (keeps : Keeps) → IsValid ex → LeadsThrough ex sheet
        keeps }
{}
