//! Writing a whole certificate.

ghost use Rattle.std.specs.Prelude.{◌≡◌, ◌≢◌, ◌<◌, ◌≤◌, Err, OnOk, length};
ghost use Rattle.cantus_check.specs.Certificates.{Holds, IsCantusCertificate};
ghost use Rattle.cantus_check.specs.Writer.{claims_of};
ghost use Rattle.cantus_check.specs.WrittenHeads.{said_with};
ghost use Rattle.cantus_check.specs.Writing.{written_certificate};
ghost use Rattle.cert_file.specs.Ends.{EndsUnwritten, FailsShort};
ghost use Rattle.fux_port.specs.Counts.{Rose};
ghost use Rattle.fux_port.specs.Written.{appended};

use crate::case::CantusCase;
use crate::copy::case_of;
use crate::head::cantus_head_text;
use cantus_space::CantusSpace;
use cert_file::write_with_claims;
use cert_text::CertWrite;
use fux_pitch::Pitch;
use fux_port::Sink;
use std::alloc::Global;

/// Writes the certificate of a head that holds.
fn write_for_case<K: Sink>(alloc: Global, case: &CantusCase, sink: &mut K) -> Result<(), CertWrite>
    requires holds { Holds case.now.space case.now.head.best }
    ensures ok { OnOk result (K.written sink.new
        ≡ appended (K.written sink.old) (written_certificate case.now.space case.now.head.best)) }

    // A fault of writing is the sink's, and less than the certificate was written.
    ensures cause { result ≡ Err CertWrite.WriteFault → Rose (K.faults sink.old)
        (K.faults sink.new) }
    ensures short { FailsShort (K.written sink.old) (K.written sink.new)
        (written_certificate case.now.space case.now.head.best) result }

    // No sink is blamed that promises to take the whole certificate.
    ensures taken { K.serves sink.old (length (written_certificate case.now.space case.now.head.best))
        → result ≢ Err CertWrite.WriteFault }

    // Nothing is written of a certificate that is too long, nor where there is not enough memory.
    ensures too_long { result ≡ Err CertWrite.TooLong
        → 1073741824 < length (written_certificate case.now.space case.now.head.best) }
    ensures fits { 1073741824 < length (written_certificate case.now.space case.now.head.best)
        → EndsUnwritten result }
    ensures unwritten { EndsUnwritten result → K.written sink.new ≡ K.written sink.old }
    ensures faults { K.faults sink.old ≤ K.faults sink.new }
{
    let Ok(text) = cantus_head_text(alloc, &case.head) else {
        return Err(CertWrite::Memory);
    };
    write_with_claims(alloc, case, text.as_str(), sink)
}

/// Writes the certificate of the best cantus with its penalty, or the one that says that no cantus
/// is lawful. Its length is counted before its first byte is written, and all memory is taken
/// before that; then each list is judged once more, so that a certificate of any length takes no
/// more memory than a short one.
pub fn certify_cantus<K: Sink>(
    alloc: Global,
    space: &CantusSpace,
    best: Option<(&[Pitch], u64)>,
    sink: &mut K,
) -> Result<(), CertWrite>
    requires holds { Holds space.now (said_with best) }
    ensures ok { OnOk result (K.written sink.new
        ≡ appended (K.written sink.old) (written_certificate space.now (said_with best.entry))) }

    // A fault of writing is the sink's, and less than the certificate was written.
    ensures cause { result ≡ Err CertWrite.WriteFault → Rose (K.faults sink.old)
        (K.faults sink.new) }
    ensures short { FailsShort (K.written sink.old) (K.written sink.new)
        (written_certificate space.now (said_with best.entry)) result }

    // No sink is blamed that promises to take the whole certificate.
    ensures taken { K.serves sink.old (length (written_certificate space.now (said_with best.entry))) → result
        ≢ Err CertWrite.WriteFault }

    // The certificate is valid.
    ensures valid { IsCantusCertificate space.now (said_with best.entry)
        (claims_of space.now (said_with best.entry)) }

    // Nothing is written of a certificate that is too long, nor where there is not enough memory.
    ensures too_long { result ≡ Err CertWrite.TooLong
        → 1073741824 < length (written_certificate space.now (said_with best.entry)) }
    ensures fits { 1073741824 < length (written_certificate space.now (said_with best.entry))
        → EndsUnwritten result }
    ensures unwritten { EndsUnwritten result → K.written sink.new ≡ K.written sink.old }
    ensures faults { K.faults sink.old ≤ K.faults sink.new }
{
    let Ok(case) = case_of(alloc, space, best) else {
        return Err(CertWrite::Memory);
    };
    write_for_case(alloc, &case, sink)
}
