//! What a certificate is about, of a space and a cantus that are lent.

ghost use Rattle.std.specs.Prelude.{◌≡◌, IfOk};
ghost use Rattle.cantus_check.specs.WrittenHeads.{said_with};

use crate::case::CantusCase;
use crate::head::CantusHead;
use cantus_space::CantusSpace;
use fux_pitch::{List, Memory, Pitch};
use std::alloc::Global;

/// A copy of pitches.
fn copy_of(alloc: Global, pitches: &[Pitch]) -> Result<List<Pitch>, Memory>
    ensures { IfOk result (λ copy. copy ≡ pitches.now) }
{
    let mut copy = Vec::new(alloc);
    for pitch in pitches {
        copy.push(*pitch)?;
    }
    Ok(List::new(copy))
}

/// The head that says that a cantus is the best one, or that none is lawful.
fn head_of(alloc: Global, best: Option<(&[Pitch], u64)>) -> Result<CantusHead, Memory>
    ensures { IfOk result (λ head. head.best ≡ said_with best.entry) }
{
    let best = match best {
        Some((cantus, penalty)) => Some((penalty, copy_of(alloc, cantus)?)),
        None => None,
    };
    Ok(CantusHead { best })
}

/// What is written about: a space of the cantus of another one, and the head of what was found in
/// it.
pub(crate) fn case_of(
    alloc: Global,
    space: &CantusSpace,
    best: Option<(&[Pitch], u64)>,
) -> Result<CantusCase, Memory>
    ensures space { IfOk result (λ case. case.space ≡ space.now) }
    ensures head { IfOk result (λ case. case.head.best ≡ said_with best.entry) }
{
    let head = head_of(alloc, best)?;
    let plan = space.plan();
    let space = CantusSpace::new(
        plan.mode,
        plan.bars,
        plan.low,
        plan.high,
        &plan.sheet,
        &plan.prices,
    );
    Ok(CantusCase { space, head })
}
