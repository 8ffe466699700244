//! The first bytes of a file.

ghost use Rattle.std.specs.Prelude.{◌≡◌, ◌+◌, ◌≤◌, ◌<◌, ◌⊎◌, length, take, drop, IfOk, IsErr, IsOk, OnErr};
ghost use Rattle.std.specs.Io.{StartsWith};
ghost use Rattle.fux_port.specs.Counts.{Rose};
ghost use Rattle.fux_port.specs.Files.{IsMissing};
ghost use Rattle.fux_port.specs.Promises.{Keeps, ServesWhole};
ghost use Rattle.cert_file.specs.Readings.{IfThere};

use fux_port::{Failed, Shelf};

/// Reads bytes of a file from an offset on into the front of a buffer, in one read, and no more
/// than are wanted.
pub fn read_piece<F: Shelf>(
    shelf: &mut F,
    name: &str,
    offset: u64,
    buf: &mut [u8],
    wanted: usize,
) -> Result<usize, Failed>
    requires { wanted ≤ length buf.old }
    ensures long { length buf.new ≡ length buf.old }
    ensures fits { IfOk result (λ count. count ≤ wanted) }
    ensures placed { IfOk result (λ count. IfThere (F.files shelf.old) name.now (λ file.
        StartsWith (drop offset file) (take count buf.new))) }
    ensures end { IfOk result (λ count. count ≡ 0 → 0 < wanted
        → IfThere (F.files shelf.old) name.now (λ file. length file ≤ offset)) }
    ensures cause { OnErr result (Rose (F.faults shelf.old) (F.faults shelf.new)
        ⊎ IsMissing (F.files shelf.old) name.now) }
    ensures served { F.serves shelf.old name.now offset → 0 < wanted → IsOk result }
    ensures serving { Keeps (F.serves shelf.old) (F.serves shelf.new) }
    ensures little { F.given shelf.new ≤ F.given shelf.old + wanted }
    ensures told { IfOk result (λ count. F.given shelf.new ≤ F.given shelf.old + count) }
    ensures nothing { OnErr result (F.given shelf.new ≤ F.given shelf.old) }
    ensures files { F.files shelf.new ≡ F.files shelf.old }
    ensures faults { F.faults shelf.old ≤ F.faults shelf.new }
{
    shelf.read_at(name, offset, &mut buf[..wanted])
}

/// Reads the first bytes of a file into a buffer, as many as it has room for, or all of a shorter
/// file, and answers how many.
pub fn fill<F: Shelf>(shelf: &mut F, name: &str, buf: &mut [u8]) -> Result<usize, Failed>
    ensures long { length buf.new ≡ length buf.old }
    ensures fits { IfOk result (λ count. count ≤ length buf.old) }
    ensures front { IfOk result (λ count. IfThere (F.files shelf.old) name.now (λ file.
        take count buf.new ≡ take (length buf.old) file)) }

    // A failed read is the shelf's fault, or the name is missing.
    ensures cause { OnErr result (Rose (F.faults shelf.old) (F.faults shelf.new)
        ⊎ IsMissing (F.files shelf.old) name.now) }
    ensures missing { 0 < length buf.old → IsMissing (F.files shelf.old) name.now → IsErr result }
    ensures served { ServesWhole (F.serves shelf.old) name.now (length buf.old) → IsOk result }
    ensures serving { Keeps (F.serves shelf.old) (F.serves shelf.new) }

    // No more is read than there is room for, also where the file has no end.
    ensures little { F.given shelf.new ≤ F.given shelf.old + length buf.old }
    ensures told { IfOk result (λ count. F.given shelf.new ≤ F.given shelf.old + count) }

    ensures files { F.files shelf.new ≡ F.files shelf.old }
    ensures faults { F.faults shelf.old ≤ F.faults shelf.new }
{
    let mut done = 0;
    while done < buf.len() {
        let count = shelf.read_at(name, done as u64, &mut buf[done..])?;
        if count == 0 {
            return Ok(done);
        }
        done += count;
    }
    Ok(done)
}
