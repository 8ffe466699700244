//! All cases, read by one loop.

ghost use Rattle.std.specs.Prelude.{◌≡◌, ◌≤◌, ◌<◌, length};

use crate::agree::agree;
use crate::open_parts::told::Told;
use crate::open_parts::{cadences, dissonances, parallels, runs, shapes, suspensions, turnings};
use crate::parts::wanted;
use fux_grid::{Exercise, Score, species_of};
use open_ends::{
    Both, Keeps, OpenCadences, OpenLigature, OpenParallels, OpenPassing, OpenRuns, OpenShapes,
    OpenSuspensions, OpenTurns,
};
use short_scores::case_of;
use std::alloc::Global;
use std::fmt::Write;
use std::process::Abort;

/// The columns behind which something else is kept than before, and those that pay, up to one that
/// is refused.
fn changes<P: Told>(alloc: Global, ex: &Exercise, score: &Score) -> Option<String> {
    let mut text = String::new(alloc);
    let mut kept = P::none();
    for i in 0..score.len().min(2040) {
        let now = score.column(i).as_slice();
        let Some(next) = P::after(ex, Keeps::all(), i, &kept, score.before(i), now) else {
            write!(text, "\n{i} refused").ok()?;
            return Some(text);
        };
        let pays = kept.paid(i, now);
        if pays > 0 || !next.is_same(&kept) {
            write!(text, "\n{i}").ok()?;
            next.tell(&mut text)?;
        }
        if pays > 0 {
            write!(text, " pays {pays}").ok()?;
        }
        kept = next;
    }
    Some(text)
}

/// What becomes of a part in an exercise with a species for each of its voices.
#[derive(Clone, Copy)]
enum Mixed {
    /// It is followed as in one species.
    Followed,
    /// Nothing waits.
    Nothing,
}

/// The changes of a case of a part.
fn changes_in<P: Told>(alloc: Global, text: &str) -> Option<String> {
    let (text, _) = text.split_once('=')?;
    let case = case_of(alloc, text)?;
    changes::<P>(alloc, &case.exercise, &case.score)
}

/// The species of each voice.
fn all_species(ex: &Exercise) -> [u8; 4] {
    [
        species_of(ex, 0),
        species_of(ex, 1),
        species_of(ex, 2),
        species_of(ex, 3),
    ]
}

/// The same where each voice is given the species that it has.
fn changes_in_mixed<P: Told>(alloc: Global, text: &str) -> Option<String> {
    let (text, _) = text.split_once('=')?;
    let mut case = case_of(alloc, text)?;
    case.exercise.mixed = Some(all_species(&case.exercise));
    changes::<P>(alloc, &case.exercise, &case.score)
}

/// Compares the changes of each case of a part with what they should be.
fn stand<P: Told>(rt: &impl Abort, alloc: Global, cases: &str) {
    for text in cases.split("\n\n") {
        let found = changes_in::<P>(alloc, text);
        agree(rt, text, found.as_deref(), wanted(text).trim_end());
    }
}

/// Compares them where each voice is given the species that it has with what becomes of the part
/// there.
fn stand_mixed<P: Told>(rt: &impl Abort, alloc: Global, cases: &str, mixed: Mixed) {
    for text in cases.split("\n\n") {
        let found = changes_in_mixed::<P>(alloc, text);
        let wanted = match mixed {
            Mixed::Followed => changes_in::<P>(alloc, text),
            Mixed::Nothing => Some(String::new(alloc)),
        };
        agree(
            rt,
            text,
            found.as_deref(),
            wanted.as_deref().unwrap_or("a case"),
        );
    }
}

#[test]
fn cases_stand(rt: HostRuntime) {
    let alloc = rt.alloc();
    stand::<Both<OpenPassing, OpenLigature>>(&rt, alloc, dissonances::CASES);
    stand::<OpenShapes>(&rt, alloc, shapes::CASES);
    stand::<OpenParallels>(&rt, alloc, parallels::CASES);
    stand::<OpenSuspensions>(&rt, alloc, suspensions::CASES);
    stand::<OpenCadences>(&rt, alloc, cadences::CASES);
    stand::<OpenTurns>(&rt, alloc, turnings::CASES);
    stand::<OpenRuns>(&rt, alloc, runs::CASES);

    // S15 is of one species alone.
    stand_mixed::<OpenPassing>(&rt, alloc, dissonances::CASES, Mixed::Nothing);
    stand_mixed::<OpenLigature>(&rt, alloc, dissonances::CASES, Mixed::Followed);
    stand_mixed::<OpenShapes>(&rt, alloc, shapes::CASES, Mixed::Followed);
    stand_mixed::<OpenParallels>(&rt, alloc, parallels::CASES, Mixed::Followed);
    stand_mixed::<OpenSuspensions>(&rt, alloc, suspensions::CASES, Mixed::Followed);
    stand_mixed::<OpenCadences>(&rt, alloc, cadences::CASES, Mixed::Followed);
    stand_mixed::<OpenTurns>(&rt, alloc, turnings::CASES, Mixed::Followed);
}
