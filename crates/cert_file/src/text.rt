//! The line that tells a verdict.

ghost use Rattle.std.specs.Prelude.{◌≡◌, IfOk, string_bytes};
ghost use Rattle.cert_file.specs.Verdicts.{accepted_line, fault_line, refused_line, verdict_line};

use crate::verdict::Verdict;
use cert_text::{Accepted, CertFault, Refused, Why};
use fux_pitch::Memory;
use std::alloc::Global;
use std::fmt::Write;

/// The line that tells a verdict, with its line feed.
pub fn verdict_text(alloc: Global, verdict: Verdict) -> Result<String, Memory>
    ensures { IfOk result (λ text. string_bytes text ≡ verdict_line verdict) }
{
    match verdict {
        Verdict::Accepted(answer) => accepted_text(alloc, answer),
        Verdict::Claim(refused) => refused_text(alloc, refused),
        Verdict::Text(fault) => fault_text(alloc, fault),
    }
}

/// What is accepted.
fn accepted_text(alloc: Global, answer: Accepted) -> Result<String, Memory>
    ensures { IfOk result (λ text. string_bytes text ≡ accepted_line answer) }
{
    let mut text = String::new(alloc);
    match answer {
        Accepted::Best(penalty) => write!(text, "accepted: best {penalty}\n")?,
        Accepted::Nothing => text.push_str("accepted: none\n")?,
    }
    Ok(text)
}

/// Which claim, or which number or price that is stated, is refused, and why.
fn refused_text(alloc: Global, refused: Refused) -> Result<String, Memory>
    ensures { IfOk result (λ text. string_bytes text ≡ refused_line refused) }
{
    let Refused { number, why } = refused;
    let mut text = String::new(alloc);
    match why {
        Why::Head => write!(text, "refused at claim {number}: head\n")?,
        Why::False => write!(text, "refused at claim {number}: false\n")?,
        Why::Over => write!(text, "refused at claim {number}: over\n")?,
        Why::Short => write!(text, "refused at claim {number}: short\n")?,
        Why::Potential => write!(text, "refused at potential {number}: false\n")?,
        Why::Price => write!(text, "refused at price {number}: false\n")?,
    }
    Ok(text)
}

/// At which byte the text is refused, and what is wrong there. Memory isn't the text's fault, and
/// has no line.
fn fault_text(alloc: Global, fault: CertFault) -> Result<String, Memory>
    ensures { IfOk result (λ text. string_bytes text ≡ fault_line fault) }
{
    let mut text = String::new(alloc);
    match fault {
        CertFault::CertHead { at } => write!(text, "refused at byte {at}: head\n")?,
        CertFault::CertWord { at } => write!(text, "refused at byte {at}: word\n")?,
        CertFault::CertEnd { at } => write!(text, "refused at byte {at}: end\n")?,
        CertFault::Memory => return Err(Memory),
    }
    Ok(text)
}
