//! A file as events.

ghost use Rattle.std.specs.Prelude.{ℕ, List, Result, ◌≡◌, ◌<◌, ◌↔◌, IfOk};
ghost use Rattle.smf_bytes.specs.declared.fault.ByteFault.{ByteFault as AFault};
ghost use Rattle.smf_bytes.specs.declared.events.Events.{Events as AReader};
ghost use Rattle.smf_bytes.specs.Events.{Answers, File};
ghost use Rattle.smf_bytes.specs.Files.{AreToCome, IsFile, IsOpened};

use crate::chunks::header_of;
use crate::events::Events;
use crate::fault::ByteFault;

/// The longest file that is read, in bytes.
const MOST_BYTES: usize = 1_048_576;

/// The events of a file. It reads the header; the events are read one after the other.
pub fn open(bytes: &[u8]) -> Result<Events<'_>, ByteFault>
    ensures value { (file : Result File AFault) → IsFile bytes.now file ↔ IsOpened result file }
    ensures ticks { IfOk result (λ events. 0 < events.header.division) }
{
    let size = bytes.len();
    if size > MOST_BYTES {
        return Err(ByteFault::TooLong);
    }
    let (header, rest) = header_of(size, bytes)?;
    Ok(Events::behind(header, size, rest))
}

/// A law, and nothing to run: bytes are one file, and a reader has one list of answers to come.
pub fn one_reading()
    ensures file { (bytes : List ℕ) → (file : Result File AFault) × IsFile bytes file
        × ((other : Result File AFault) → IsFile bytes other → other ≡ file) }
    ensures to_come { (events : AReader) → (answers : Answers) × AreToCome events answers
        × ((others : Answers) → AreToCome events others → others ≡ answers) }
{}
