//! Putting a line behind those that wait.

ghost use Rattle.std.specs.Prelude.{◌≡◌, ℕ, ◌+◌, ◌≤◌, IsOk, OnErr, OnOk, length};
ghost use Rattle.fux_port.specs.Counts.{Rose};
ghost use Rattle.fux_port.specs.Promises.{KeepsBehind};
ghost use Rattle.fux_port.specs.Written.{StopsShort};
ghost use Rattle.fux_port.specs.Waiting.{Puts};

use crate::whole::write_all;
use crate::{Failed, Sink};
use arrayvec::ArrayString;

/// Puts a line behind the bytes that wait to be written. Where it may not fit, they are written
/// first.
pub fn put<K: Sink>(sink: &mut K, waiting: &mut ArrayString<4096>, line: &str) -> Result<(), Failed>
    requires { length line.now ≤ 4096 }
    ensures ok { OnOk result (Puts (K.written sink.old) (K.written sink.new) waiting.old.bytes
        waiting.new.bytes line.now) }
    ensures cause { OnErr result (Rose (K.faults sink.old) (K.faults sink.new)) }
    ensures err { OnErr result (StopsShort (K.written sink.old) (K.written sink.new)
        waiting.old.bytes) }

    // No fault is blamed on a sink that promises to take the bytes that wait, or more.
    ensures taken { (more : ℕ) → K.serves sink.old (length waiting.old.bytes + more) → IsOk result }
    ensures taking { OnOk result (KeepsBehind (K.serves sink.old) (K.serves sink.new)
        (length waiting.old.bytes + length line.now) (length waiting.new.bytes)) }

    ensures faults { K.faults sink.old ≤ K.faults sink.new }
{
    if waiting.try_push_str(line).is_ok() {
        return Ok(());
    }
    write_all(sink, waiting.as_str().as_bytes())?;
    waiting.clear();
    waiting.push_str(line);
    Ok(())
}
