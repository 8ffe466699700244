//! The head of a cantus certificate, and its text.

ghost use Rattle.std.specs.Prelude.{◌≡◌, ℕ, IfErr, IfOk, string_bytes};
ghost use Rattle.cantus_check.specs.Heads as words;
ghost use Rattle.cert_text.specs.Pieces.{Stands};
ghost use Rattle.cantus_check.specs.Heads.{IsHeadFault, IsHeadText, Said, UnlessMemory};
ghost use Rattle.cantus_check.specs.Rows.{said_of};

use crate::line::cantus_line;
use crate::scan::{MOST_PITCHES, scan_head};
use cert_text::CertFault;
use fux_pitch::{List, Memory, Pitch};
use std::alloc::Global;
use std::fmt::Write;

/// What a certificate's head says.
#[derive(Drop)]
pub struct CantusHead {
    /// The best cantus and its penalty, or that no cantus is lawful.
    pub best: Option<(u64, List<Pitch>)>,
}

/// The head that says a penalty and these pitches, or that no cantus is lawful.
fn head_of(penalty: Option<u64>, pitches: Vec<Pitch>) -> CantusHead
    ensures { result.best ≡ said_of penalty pitches.items }
{
    let best = match penalty {
        Some(penalty) => Some((penalty, List::new(pitches))),
        None => None,
    };
    CantusHead { best }
}

/// The head at the front of a certificate, and its length.
///
/// It is refused at the first byte by which no head goes on, or at the end of bytes that end within
/// a head. Whether its cantus is lawful, and has the penalty, isn't judged here. What stands behind
/// a head isn't looked at.
pub fn cantus_head(alloc: Global, bytes: &[u8]) -> Result<(CantusHead, usize), CertFault>
    // A head that is answered stands at the front, and a fault is where no head goes on.
    ensures ok { IfOk result (λ found. Stands IsHeadText bytes.now found.0.best found.1) }
    ensures fault { IfErr result (IsHeadFault bytes.now) }

    // Where a head's text stands at the front, it is answered, unless memory runs out.
    ensures only { (said : Said) (n : ℕ) → Stands IsHeadText bytes.now said n
        → UnlessMemory result (λ found. (found.0.best ≡ said) × (found.1 ≡ n)) }
{
    let Ok(mut pitches) = Vec::with_capacity(alloc, MOST_PITCHES as usize) else {
        return Err(CertFault::Memory);
    };
    match scan_head(bytes, &mut pitches) {
        Ok((penalty, rest)) => Ok((head_of(penalty, pitches), bytes.len() - rest.len())),
        Err(left) => {
            let at = (bytes.len() - left) as u64;
            Err(CertFault::CertHead { at })
        }
    }
}

/// The text of a head. Where it says at most 24 pitches, and no fewer than three, it is read back
/// by [`cantus_head`].
pub fn cantus_head_text(alloc: Global, head: &CantusHead) -> Result<String, Memory>
    ensures { IfOk result (λ text. string_bytes text ≡ words.head_text head.now.best) }
{
    let mut text = String::new(alloc);
    match &head.best {
        None => text.push_str("fux-cantus-cert 1\nnone\nclaims\n")?,
        Some((penalty, cantus)) => {
            write!(text, "fux-cantus-cert 1\nbest {penalty}\n")?;
            let line = cantus_line(alloc, cantus.as_slice())?;
            text.push_str(line.as_str())?;
            text.push_str("claims\n")?;
        }
    }
    Ok(text)
}
