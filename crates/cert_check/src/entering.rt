//! What a certificate of the second form states, as it is read.

ghost use Rattle.std.specs.Prelude.{◌≡◌, ◌≢◌, ℕ, ◌+◌, ◌≤◌, Err, IfErr, OnOk, length};
ghost use Rattle.cert_check.specs.Entering.{Enters, IsEnteredInto};
ghost use Rattle.cert_file.specs.Nearness.{EndsNear};
ghost use Rattle.cert_file.specs.Readings.{longest_piece};
ghost use Rattle.cert_law.specs.Certificates.{IsHeadSound};
ghost use Rattle.fux_port.specs.Counts.{Rose};
ghost use Rattle.fux_port.specs.Promises.{Keeps, ServesWhole};

use crate::stated::Stated;
use cert_file::{ReadFault, StatedReader};
use cert_text::CertFault;
use fux_port::Shelf;

/// Takes what a certificate states behind its head, through the line `claims`, or up to the first
/// line that isn't the one that is owed.
pub(crate) fn enter<F: Shelf>(
    shelf: &mut F,
    name: &str,
    reader: &mut StatedReader,
    stated: &mut Stated<'_>,
) -> Result<(), ReadFault>
    requires sound { IsHeadSound stated.old.exercise stated.old.sheet stated.old.head }
    requires entered { IsEnteredInto (F.files shelf.old) name.now stated.old reader.old }
    ensures enters { Enters (F.files shelf.old) name.now
        (Rose (F.faults shelf.old) (F.faults shelf.new)) stated.old stated.new reader.new result }
    ensures limit { reader.new.offset ≤ 1073741824 }

    // Where a line is wrong, no more than a piece is read beyond that line.
    ensures short { length reader.new.ahead ≤ longest_piece }
    ensures word { (at : ℕ) → result ≡ Err (ReadFault.Text (CertFault.CertWord at))
        → (F.given shelf.new + reader.old.offset ≤ F.given shelf.old + reader.new.offset)
        × EndsNear (F.files shelf.old) name.now at reader.new.offset }

    ensures served { ServesWhole (F.serves shelf.old) name.now 1073741824
        → IfErr result (λ fault. fault ≢ ReadFault.Unreadable) }
    ensures serving { Keeps (F.serves shelf.old) (F.serves shelf.new) }
    ensures little { F.given shelf.new + reader.old.offset ≤ F.given shelf.old
        + (reader.new.offset + 1) }
    ensures told { OnOk result (F.given shelf.new + reader.old.offset ≤ F.given shelf.old
        + reader.new.offset) }
    ensures files { F.files shelf.new ≡ F.files shelf.old }
    ensures faults { F.faults shelf.old ≤ F.faults shelf.new }
{
    loop {
        match reader.next(shelf, name) {
            Ok(Some(potential)) => stated.state(potential),
            Ok(None) => return Ok(()),
            Err(fault) => return Err(fault),
        }
    }
}
