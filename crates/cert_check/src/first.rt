//! The first test that fails, found by many threads.

ghost use Rattle.std.specs.Prelude.{◌≡◌, ◌↔◌, ◌<◌, ℕ, true, length, slice_index_or, IfOk, IsTrue};
ghost use Rattle.cert_check.specs.First.{AreAnswers, IsFirstFailing, IsFirstNo};

use crate::tests::Tests;
use fux_pitch::Memory;
use rayon::prelude::*;
use std::alloc::Global;
use std::thread::Threads;

/// Whether each test is passed, in the order of their numbers.
fn answers<R: Threads + Sync, T: Tests + Sync>(
    rt: &R,
    alloc: Global,
    tests: &T,
) -> Result<Vec<bool>, Memory>
    ensures { IfOk result (λ found. AreAnswers (T.passes tests.now) (T.size tests.now)
        found.items) }
{
    let found = (0..tests.count())
        .into_par_iter()
        .map(
            |n: usize| -> bool
                requires { n < T.size tests.now }
                ensures { IsTrue result ↔ T.passes tests.entry.now n }
            { tests.is_passed(n) },
        )
        .collect::<Vec<bool>>(rt, alloc)?;
    Ok(found)
}

/// The number of the first answer that is no.
fn first_no(answers: &[bool]) -> Option<usize>
    ensures { IsFirstNo answers.now result }
{
    for n in 0..answers.len() {
        if !answers[n] {
            return Some(n);
        }
    }
    None
}

/// The number of the first test that fails; none only where each is passed. It is the same for
/// every division of the work.
pub fn first_failing<R: Threads + Sync, T: Tests + Sync>(
    rt: &R,
    alloc: Global,
    tests: &T,
) -> Result<Option<usize>, Memory>
    ensures { IfOk result (IsFirstFailing (T.passes tests.now) (T.size tests.now)) }
{
    let found = answers(rt, alloc, tests)?;
    Ok(first_no(&found))
}
