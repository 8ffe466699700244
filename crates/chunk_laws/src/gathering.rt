//! What was made of the chunks of a list, gathered.

ghost use Rattle.std.specs.Prelude.{IfOk};
ghost use Rattle.chunk_laws.specs.Gathered.{AreGathered};

use fux_pitch::Memory;
use std::alloc::Global;

/// The items of all parts, in order. Want of memory in a part is passed on.
pub fn gathered<T: Copy + Drop>(
    alloc: Global,
    width: usize,
    parts: &[Result<Vec<T>, Memory>],
) -> Result<Vec<T>, Memory>
    ensures { IfOk result (λ all. AreGathered parts.now all.items) }
{
    let mut all = Vec::with_capacity(alloc, width)?;
    for part in parts {
        match part {
            Ok(items) => all.extend_from_slice(items)?,
            Err(fault) => return Err(*fault),
        }
    }
    Ok(all)
}
