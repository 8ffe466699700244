//! A certificate's claims, read and judged one by one.

ghost use Rattle.std.specs.Prelude.{◌≡◌, ◌≢◌, ◌+◌, ◌^◌, ◌≤◌, [], None, IfOk, IsOk, OnErr};
ghost use Rattle.cert_text.specs.declared.answers.Why.TheVariants as whys;
ghost use Rattle.cert_file.specs.declared.verdict.Verdict.TheVariants as verdicts;
ghost use Rattle.cert_file.specs.Checking.{opened_at};
ghost use Rattle.cert_file.specs.Judgments.{Finds, Shows};
ghost use Rattle.cert_file.specs.Nearness.{ReadsNear};
ghost use Rattle.cert_file.specs.Subjects.{IsOpened};
ghost use Rattle.fux_port.specs.Counts.{Rose};
ghost use Rattle.fux_port.specs.Promises.{ServesWhole};

use crate::checks::Checks;
use crate::fault::ReadFault;
use crate::reader::Reader;
use crate::verdict::Verdict;
use fux_port::{Failed, Shelf};

/// Judges the claims behind what stands in front of them, each as it is read, up to the first thing
/// that is wrong or the end of the file.
pub fn judge<F: Shelf, C: Checks + Drop>(
    shelf: &mut F,
    name: &str,
    reader: &mut Reader,
    mut checker: C,
) -> Result<Verdict, Failed>
    requires fresh { C.seen checker ≡ opened_at (C.seen checker).asked (C.seen checker).head
        (C.subject (C.seen checker).asked).root }
    requires sound { (C.subject (C.seen checker).asked).IsSound (C.seen checker).head }
    requires opened { IsOpened (C.subject (C.seen checker).asked).IsHead (F.files shelf.old)
        name.now (C.seen checker).head reader.old }
    ensures finds { IfOk result (Finds (C.subject (C.seen checker).asked) (C.seen checker).head
        (F.files shelf.old) name.now) }
    ensures shown { IfOk result (Shows (C.subject (C.seen checker).asked) (C.seen checker).head) }
    ensures cause { OnErr result (Rose (F.faults shelf.old) (F.faults shelf.new)) }
    ensures served { ServesWhole (F.serves shelf.old) name.now 1073741824 → IsOk result }

    // It ends within what a certificate may have, also where the file has no end; and where a claim
    // is refused or a line is wrong, no more than a piece is read beyond that line.
    ensures little { F.given shelf.new + reader.old.offset ≤ F.given shelf.old + 1073741825 }
    ensures near { IfOk result (ReadsNear (C.subject (C.seen checker).asked) (C.seen checker).head
        (F.files shelf.old) name.now (F.given shelf.old) (F.given shelf.new + reader.old.offset)) }
    ensures files { F.files shelf.new ≡ F.files shelf.old }
    ensures faults { F.faults shelf.old ≤ F.faults shelf.new }
{
    loop {
        match reader.next(shelf, name) {
            Ok(Some(claim)) => {
                if let Err(refused) = checker.feed(claim) {
                    return Ok(Verdict::Claim(refused));
                }
            }
            Ok(None) => return Ok(at_end(&checker)),
            Err(ReadFault::Text(fault)) => return Ok(Verdict::Text(fault)),
            Err(ReadFault::Unreadable) => return Err(Failed),
        }
    }
}

/// The verdict where the file ends behind the claims that were taken.
fn at_end<C: Checks>(checker: &C) -> Verdict
    requires count { (C.seen checker.now).count ≤ 2 ^ 40 }
    requires clear { (C.seen checker.now).refusal ≡ None }
    ensures accepted { (C.seen checker.now).owed ≡ [] → result ≡ verdicts.Accepted
        ((C.subject (C.seen checker.now).asked).accepted (C.seen checker.now).head) }
    ensures short { (C.seen checker.now).owed ≢ [] → result
        ≡ verdicts.Claim (record { number = (C.seen checker.now).count + 1; why = whys.Short }) }
    ensures shown { Shows (C.subject (C.seen checker.now).asked) (C.seen checker.now).head result }
{
    match checker.finish() {
        Ok(answer) => Verdict::Accepted(answer),
        Err(refused) => Verdict::Claim(refused),
    }
}
