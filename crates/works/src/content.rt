//! Reading a file.

ghost use Rattle.std.specs.Prelude.{◌≡◌, ◌+◌, ◌≤◌, IfErr};
ghost use Rattle.fux_port.specs.Counts.{Rose};
ghost use Rattle.fux_port.specs.Promises.{Keeps, ServesWhole};
ghost use Rattle.works.specs.Blame.{BlamesNoFile};
ghost use Rattle.works.specs.Works.{Reads};

use crate::complaint::{Complaint, FileName};
use class_marker::Text;
use fux_port::{Shelf, WholeFault, read_whole};
use std::alloc::Global;

/// Reads the file of a name, and no more than one byte past the limit.
pub fn read_content<'a, F: Shelf>(
    alloc: Global,
    shelf: &mut F,
    name: &'a str,
    limit: usize,
) -> Result<Text, Complaint<'a>>
    ensures reads { Reads limit (F.files shelf.old) (Rose (F.faults shelf.old) (F.faults shelf.new))
        name.now result }
    ensures served { ServesWhole (F.serves shelf.old) name.now limit → IfErr result BlamesNoFile }
    ensures serving { Keeps (F.serves shelf.old) (F.serves shelf.new) }
    ensures little { F.given shelf.new ≤ F.given shelf.old + (limit + 1) }
    ensures files { F.files shelf.new ≡ F.files shelf.old }
    ensures faults { F.faults shelf.old ≤ F.faults shelf.new }
{
    match read_whole(alloc, shelf, name, limit) {
        Ok(bytes) => Ok(Text::Bytes(bytes)),
        Err(WholeFault::TooLong) => Ok(Text::TooLong),
        Err(WholeFault::Failed) => Err(Complaint::Unreadable {
            name: FileName::Given(name),
        }),
        Err(WholeFault::Memory) => Err(Complaint::OutOfMemory),
    }
}
