//! Whole files, and whole writes.

ghost use Rattle.std.specs.Prelude.{◌≡◌, ◌≢◌, ℕ, ◌+◌, ◌≤◌, ◌<◌, ◌⊎◌, List, length, IfOk, OnOk, OnErr, IsOk};
ghost use Rattle.fux_port.specs.Counts.{Rose};
ghost use Rattle.fux_port.specs.Files.{HasFile, IsMissing};
ghost use Rattle.fux_port.specs.Promises.{Keeps, KeepsRoom, ServesWhole};
ghost use Rattle.fux_port.specs.Written.{appended, StopsShort};

use crate::{Failed, Shelf, Sink, WholeFault};
use std::alloc::Global;

/// All bytes of a file that has no more than `limit`. A byte past it shows that a file has more.
pub fn read_whole<F: Shelf>(
    alloc: Global,
    shelf: &mut F,
    name: &str,
    limit: usize,
) -> Result<Vec<u8>, WholeFault>
    ensures ok { IfOk result (λ bytes. (file : List ℕ) → HasFile (F.files shelf.old) name.now file
        → bytes.items ≡ file) }
    ensures within { IfOk result (λ bytes. length bytes.items ≤ limit) }
    ensures too_long { result ≡ Err WholeFault.TooLong
        → (file : List ℕ) → HasFile (F.files shelf.old) name.now file → limit < length file }

    // A failed read is the shelf's fault, or the name is missing, which is nobody's fault.
    ensures failed { result ≡ Err WholeFault.Failed
        → Rose (F.faults shelf.old) (F.faults shelf.new) ⊎ IsMissing (F.files shelf.old) name.now }
    ensures missing { IsMissing (F.files shelf.old) name.now → result ≡ Err WholeFault.Failed }
    ensures no_fault { IsMissing (F.files shelf.old) name.now
        → F.faults shelf.new ≡ F.faults shelf.old }

    // It ends within the limit, also where the file has no end.
    ensures little { F.given shelf.new ≤ F.given shelf.old + (limit + 1) }

    // No fault is blamed on a shelf that promises each read up to the limit.
    ensures served { ServesWhole (F.serves shelf.old) name.now limit → result
        ≢ Err WholeFault.Failed }
    ensures serving { Keeps (F.serves shelf.old) (F.serves shelf.new) }

    ensures files { F.files shelf.new ≡ F.files shelf.old }
    ensures faults { F.faults shelf.old ≤ F.faults shelf.new }
{
    let mut bytes = Vec::new(alloc);
    let mut chunk = [0u8; 16_384];
    loop {
        let left = limit - bytes.len();
        // A byte past the limit shows that the file is too long.
        let wanted = chunk.len().min(left.saturating_add(1));
        let count = shelf.read_at(name, bytes.len() as u64, &mut chunk[..wanted])?;
        if count == 0 {
            return Ok(bytes);
        }
        if count > left {
            return Err(WholeFault::TooLong);
        }
        bytes.extend_from_slice(&chunk[..count])?;
    }
}

/// Writes all of these bytes, in as many writes as it takes.
pub fn write_all<K: Sink>(sink: &mut K, bytes: &[u8]) -> Result<(), Failed>
    ensures ok { OnOk result (K.written sink.new ≡ appended (K.written sink.old) bytes.now) }
    ensures cause { OnErr result (Rose (K.faults sink.old) (K.faults sink.new)) }
    ensures err { OnErr result (StopsShort (K.written sink.old) (K.written sink.new) bytes.now) }

    // No fault is blamed on a sink that promises to take them all, nor on one that promises more.
    ensures served { K.serves sink.old (length bytes.now) → IsOk result }
    ensures beyond { (more : ℕ) → K.serves sink.old (length bytes.now + more) → IsOk result }
    ensures serving { OnOk result (KeepsRoom (K.serves sink.old) (K.serves sink.new)
        (length bytes.now)) }

    ensures faults { K.faults sink.old ≤ K.faults sink.new }
{
    let mut done = 0;
    while done < bytes.len() {
        done += sink.write(&bytes[done..])?;
    }
    Ok(())
}
