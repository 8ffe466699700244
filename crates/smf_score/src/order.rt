//! The notes of a file by voice and time.

ghost use Rattle.std.specs.Prelude.{◌≡◌, All, IfOk, OnOk};
ghost use Rattle.smf_score.specs.Played.{IsPlayed};
ghost use Rattle.smf_score.specs.Order.{IsInOrder};

use crate::played::Played;
use std::alloc::AllocError;

/// Puts notes in order: voice by voice, in a voice by the ticks at which they start, and at one
/// tick as they are struck.
pub fn put_in_order(notes: &mut Vec<Played>) -> Result<(), AllocError>
    requires { All IsPlayed notes.old.items }
    ensures order { OnOk result (IsInOrder notes.old.items notes.new.items) }
    ensures bounds { All IsPlayed notes.new.items }
{
    notes.sort_by_key(|note| (note.rank, note.start))?;
    Ok(())
}
