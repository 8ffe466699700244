//! The head of a certificate's file.

ghost use Rattle.std.specs.Prelude.{◌≡◌, ◌≢◌, ◌+◌, ◌≤◌, IfErr, IfOk};
ghost use Rattle.fux_grid.specs.Exercises.{IsValid};
ghost use Rattle.fux_port.specs.Counts.{Rose};
ghost use Rattle.fux_port.specs.Files.{IsMissing};
ghost use Rattle.fux_port.specs.Promises.{Keeps, ServesWhole};
ghost use Rattle.cert_file.specs.Readings.{longest_piece};
ghost use Rattle.cert_check.specs.Starts.{IsUnread, Starts};

use cert_file::{LONGEST_PIECE, Pieces, ReadFault, fill};
use cert_text::{CertFault, CertHead, Form, head_any};
use fux_grid::Exercise;
use fux_port::Shelf;
use std::alloc::Global;

/// The head of the certificate that a file is, with its form, and the bytes behind it. It reads
/// 65,536 bytes of the file, or all of a shorter one, and takes all the memory that reading wants.
pub fn start<F: Shelf>(
    alloc: Global,
    ex: &Exercise,
    shelf: &mut F,
    name: &str,
) -> Result<(Form, CertHead, Pieces), ReadFault>
    requires { IsValid ex.now }
    ensures starts { Starts ex.now (F.files shelf.old) name.now
        (Rose (F.faults shelf.old) (F.faults shelf.new)) result }
    ensures missing { IsMissing (F.files shelf.old) name.now → IsUnread result }
    ensures served { ServesWhole (F.serves shelf.old) name.now longest_piece
        → IfErr result (λ fault. fault ≢ ReadFault.Unreadable) }
    ensures serving { Keeps (F.serves shelf.old) (F.serves shelf.new) }
    ensures little { F.given shelf.new ≤ F.given shelf.old + longest_piece }
    ensures told { IfOk result (λ found. F.given shelf.new ≤ F.given shelf.old + found.2.offset) }
    ensures within { IfOk result (λ found. found.2.offset ≤ longest_piece) }
    ensures files { F.files shelf.new ≡ F.files shelf.old }
    ensures faults { F.faults shelf.old ≤ F.faults shelf.new }
{
    let mut piece = vec![in alloc; 0u8; LONGEST_PIECE]?;
    let count = fill(shelf, name, &mut piece)?;
    match head_any(alloc, ex, &piece[..count]) {
        Ok((form, head, used)) => Ok((form, head, Pieces::new(piece, used, count))),
        Err(fault) => Err(ReadFault::Text(fault)),
    }
}
