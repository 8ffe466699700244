//! Refusals, as they are answered.

ghost use Rattle.std.specs.Prelude.{◌≡◌};
ghost use Rattle.cert_file.specs.Checking as words;

use cert_text::{Refused, Why};
use cert_tree::{Cause, Refusal};

/// Why a claim is refused, as it is answered.
fn why_of(cause: Cause) -> Why
    ensures { result ≡ words.why_of cause }
{
    match cause {
        Cause::False => Why::False,
        Cause::Over => Why::Over,
        Cause::Short => Why::Short,
    }
}

/// A refusal, as it is answered.
pub fn refused_by(refusal: Refusal) -> Refused
    ensures { result ≡ words.refused_by refusal }
{
    Refused {
        number: refusal.number,
        why: why_of(refusal.cause),
    }
}
