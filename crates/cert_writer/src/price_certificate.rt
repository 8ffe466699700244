//! Writing the text of a certificate's head and lists, and behind it the claims of a case with lists.

ghost use Rattle.std.specs.Prelude.{◌≡◌, ◌≤◌, ◌++◌, Err, None, OnOk};
ghost use Rattle.cert_law.specs.Certificates.{Holds};
ghost use Rattle.cert_law.specs.Writer.{head_text};
ghost use Rattle.cert_text.specs.declared.answers.Form.TheVariants.{Third};
ghost use Rattle.fux_port.specs.Promises.{Fails};
ghost use Rattle.cert_writer.specs.Stating.{FitBehind};
ghost use Rattle.price_check.specs.Statements.{HasLargeStated};
ghost use Rattle.price_check.specs.Lists.{lists_text};
ghost use Rattle.cert_writer.specs.Certificates.{EndsUnwritten, IsCut, IsOverlong, IsWhole, OfPriced};

use crate::answers::PricesWrite;
use cert_file::write_with_claims;
use cert_text::CertWrite;
use fux_port::Sink;
use price_check::SharpCase;
use std::alloc::Global;

/// Writes the text of a head that holds and of lists, and behind it the first claim that is true of
/// each prefix that is owed.
pub(crate) fn write_priced<K: Sink>(
    alloc: Global,
    it: &SharpCase<'_, '_>,
    text: &str,
    sink: &mut K,
) -> Result<(), PricesWrite>
    requires unmixed { it.now.case.exercise.mixed ≡ None }
    requires holds { Holds it.now.case.exercise it.now.case.sheet it.now.case.head }
    requires fit { FitBehind it.now.case.exercise it.now.case.sheet
        (head_text it.now.case.exercise Third it.now.case.head) it.now.lines }
    requires small { HasLargeStated it.now.case.exercise it.now.case.sheet it.now.lines → ⊥ }
    requires text { text.now ≡ head_text it.now.case.exercise Third it.now.case.head
        ++ lists_text it.now.lines }
    ensures ok { OnOk result (OfPriced it.now.case.exercise it.now.case.sheet it.now.case.head
        (IsWhole (K.written sink.old) (K.written sink.new))) }
    ensures cut { result ≡ Err PricesWrite.WriteFault
        → OfPriced it.now.case.exercise it.now.case.sheet it.now.case.head
        (IsCut (Fails K.faults K.serves sink.old sink.new) (K.written sink.old)
        (K.written sink.new)) }
    ensures too_long { result ≡ Err PricesWrite.TooLong
        → OfPriced it.now.case.exercise it.now.case.sheet it.now.case.head IsOverlong }
    ensures woven { result ≡ Err PricesWrite.TooLarge → ⊥ }
    ensures unwritten { EndsUnwritten result → K.written sink.new ≡ K.written sink.old }
    ensures faults { K.faults sink.old ≤ K.faults sink.new }
{
    it.kept();
    match write_with_claims(alloc, it, text, sink) {
        Ok(()) => Ok(()),
        Err(CertWrite::WriteFault) => Err(PricesWrite::WriteFault),
        Err(CertWrite::TooLong) => Err(PricesWrite::TooLong),
        Err(CertWrite::Memory) => Err(PricesWrite::Memory),
    }
}
