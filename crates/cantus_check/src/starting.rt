//! The head of a certificate's file.

ghost use Rattle.std.specs.Prelude.{◌≡◌, ◌≢◌, ◌+◌, ◌≤◌, IfErr, IfOk};
ghost use Rattle.fux_port.specs.Counts.{Rose};
ghost use Rattle.fux_port.specs.Files.{IsMissing};
ghost use Rattle.fux_port.specs.Promises.{Keeps, ServesWhole};
ghost use Rattle.cert_file.specs.Readings.{longest_piece};
ghost use Rattle.cantus_check.specs.Starts.{IsUnread, Starts};

use crate::head::{CantusHead, cantus_head};
use cert_file::{LONGEST_PIECE, ReadFault, Reader, fill};
use cert_text::CertFault;
use fux_port::Shelf;
use std::alloc::Global;

/// The head of the certificate that a file is, and a reader of the claims behind it. It reads
/// 65,536 bytes of the file, or all of a shorter one, and takes all the memory that reading wants.
pub fn start<F: Shelf>(
    alloc: Global,
    shelf: &mut F,
    name: &str,
) -> Result<(CantusHead, Reader), ReadFault>
    ensures starts { Starts (F.files shelf.old) name.now
        (Rose (F.faults shelf.old) (F.faults shelf.new)) result }
    ensures missing { IsMissing (F.files shelf.old) name.now → IsUnread result }
    ensures served { ServesWhole (F.serves shelf.old) name.now longest_piece
        → IfErr result (λ fault. fault ≢ ReadFault.Unreadable) }
    ensures serving { Keeps (F.serves shelf.old) (F.serves shelf.new) }
    ensures little { F.given shelf.new ≤ F.given shelf.old + longest_piece }
    ensures told { IfOk result (λ found. F.given shelf.new ≤ F.given shelf.old + found.1.offset) }
    ensures files { F.files shelf.new ≡ F.files shelf.old }
    ensures faults { F.faults shelf.old ≤ F.faults shelf.new }
{
    let mut piece = vec![in alloc; 0u8; LONGEST_PIECE]?;
    let count = fill(shelf, name, &mut piece)?;
    match cantus_head(alloc, &piece[..count]) {
        Ok((head, used)) => Ok((head, Reader::new(piece, used, count))),
        Err(fault) => Err(ReadFault::Text(fault)),
    }
}
