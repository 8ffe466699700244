//! The cantus at the end of a path.

ghost use Rattle.std.specs.Prelude.{◌≡◌, IfOk, IsSome};
ghost use Rattle.cantus_space.specs.Paths.{live_at, pitches_at};

use crate::pools::numbered_pitch;
use crate::space::CantusSpace;
use fux_pitch::{Memory, Pitch};
use std::alloc::Global;

/// The pitches that a live path of the space leads to.
pub fn cantus_of(alloc: Global, space: &CantusSpace, path: &[u16]) -> Result<Vec<Pitch>, Memory>
    requires { IsSome (live_at space.now path.now) }
    ensures { IfOk result (λ cantus. cantus.items ≡ pitches_at space.now path.now) }
{
    let plan = space.plan();
    let mut cantus = Vec::new(alloc);
    for k in path {
        cantus.push(numbered_pitch(plan, usize::from(*k)))?;
    }
    Ok(cantus)
}
