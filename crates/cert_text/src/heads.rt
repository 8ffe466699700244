//! Reading the head of a certificate.

ghost use Rattle.std.specs.Prelude.{◌≡◌, ◌≤◌, ℕ, IfErr, IfOk, Some, length, take};
ghost use Rattle.fux_grid.specs.Exercises.{IsValid};
ghost use Rattle.cert_text.specs.declared.answers.CertHead.{CertHead};
ghost use Rattle.cert_text.specs.declared.answers.Form.{Form as AForm};
ghost use Rattle.cert_text.specs.HeadRows.{IsUpTo};
ghost use Rattle.cert_text.specs.HeadTexts.{AnswersFirstTexts, AnswersTexts, Heads, IsHeadFault, UnlessMemory, penalty_of};
ghost use Rattle.cert_text.specs.SingItems.{AreLines, best_text};
ghost use Rattle.cert_text.specs.WrittenLines.{BestHeadsAreWritten, BestTextsAreWritten, HeadTextsAreShort, HeadsAreOne, TextsAreOfHeads, WrittenLinesAreRead};

use crate::answers::{CertFault, CertHead, Form};
use crate::scan::scan_head;
use fux_grid::Exercise;
use fux_text::read_sing;
use std::alloc::Global;
use text_lines::TextFault;

/// The head of this form, this penalty and these lines, whose text is so many bytes, with its form
/// and its length.
fn best_head(
    alloc: Global,
    ex: &Exercise,
    bytes: &[u8],
    form: Form,
    penalty: u64,
    lines: &[u8],
    used: usize,
) -> Result<(Form, CertHead, usize), CertFault>
    requires valid { IsValid ex.now }
    requires within { used ≤ length bytes.now }
    requires lines { AreLines ex.now lines.now }
    requires text { take used bytes.now ≡ best_text form penalty lines.now }
    ensures ok { IfOk result (λ found. (found.0 ≡ form) × Heads ex.now found.0 bytes.now found.1
        found.2) }
    ensures same { UnlessMemory result
        (λ found. (found.0 ≡ form) × (penalty_of found.1 ≡ Some penalty) × (found.2 ≡ used)) }
{
    match read_sing(alloc, ex, lines) {
        Ok(score) => Ok((form, CertHead::Best { penalty, score }, used)),
        Err(TextFault::Memory) => Err(CertFault::Memory),
        Err(TextFault::At { .. }) => unreachable!(),
    }
}

/// The head at the front of a certificate of a form up to this one, with its form and its length.
fn head_up_to(
    alloc: Global,
    ex: &Exercise,
    last: Form,
    bytes: &[u8],
) -> Result<(Form, CertHead, usize), CertFault>
    requires { IsValid ex.now }
    ensures ok { IfOk result (λ found. IsUpTo last found.0 × Heads ex.now found.0 bytes.now found.1
        found.2) }
    ensures fault { IfErr result (IsHeadFault ex.now last bytes.now) }
    ensures texts { AnswersTexts ex.now last bytes.now result }
{
    let scan = match scan_head(ex, last, bytes) {
        Ok(scan) => scan,
        Err(left) => {
            let at = (bytes.len() - left) as u64;
            return Err(CertFault::CertHead { at });
        }
    };
    let used = bytes.len() - scan.rest.len();
    match scan.penalty {
        None => Ok((scan.form, CertHead::Nothing, used)),
        Some(penalty) => best_head(alloc, ex, bytes, scan.form, penalty, scan.lines, used),
    }
}

/// The head at the front of a certificate of any form, with its form and its length: that of the
/// third form through its last `sing` line, or `none`, behind which lists of prices stand.
///
/// It is refused at the first byte by which no head of any form goes on, or at the end of bytes that
/// end within a head. Whether its setting is lawful, and has the penalty, isn't judged here. What
/// stands behind a head isn't looked at, and no head is as long as its limit of 65,536 bytes:
/// a bar has at most eight items, of at most six bytes with the space before each, so that a head
/// has fewer than 5,000 ([`heads_are_of_settings`]).
pub fn head_any(
    alloc: Global,
    ex: &Exercise,
    bytes: &[u8],
) -> Result<(Form, CertHead, usize), CertFault>
    requires { IsValid ex.now }

    // A head that is answered stands at the front, and a fault is where no head of any form goes
    // on.
    ensures ok { IfOk result (λ found. Heads ex.now found.0 bytes.now found.1 found.2) }
    ensures fault { IfErr result (IsHeadFault ex.now Form.Third bytes.now) }

    // Where a head or its text stands at the front, it is answered, unless memory runs out.
    ensures only { (form : AForm) (head : CertHead) (n : ℕ) → Heads ex.now form bytes.now head n
        → UnlessMemory result (λ found. found ≡ (form, head, n)) }
    ensures texts { AnswersTexts ex.now Form.Third bytes.now result }
{
    head_up_to(alloc, ex, Form::Third, bytes)
}

/// The head at the front of a certificate of the first form, and its length. A head of another form
/// is refused at the digit of its form. The rest is as [`head_any`] has it.
pub fn head(alloc: Global, ex: &Exercise, bytes: &[u8]) -> Result<(CertHead, usize), CertFault>
    requires { IsValid ex.now }

    // A head that is answered stands at the front, and a fault is where no head goes on.
    ensures ok { IfOk result (λ found. Heads ex.now Form.First bytes.now found.0 found.1) }
    ensures fault { IfErr result (IsHeadFault ex.now Form.First bytes.now) }

    // Where a head or its text stands at the front, it is answered, unless memory runs out.
    ensures only { (head : CertHead) (n : ℕ) → Heads ex.now Form.First bytes.now head n
        → UnlessMemory result (λ found. found ≡ (head, n)) }
    ensures texts { AnswersFirstTexts ex.now bytes.now result }
{
    match head_up_to(alloc, ex, Form::First, bytes) {
        Ok((_, head, used)) => Ok((head, used)),
        Err(fault) => Err(fault),
    }
}

/// A law, and nothing to run: the lines of a head are read as the setting that
/// [`fux_text::sing_line`] writes them of, so that a head stands at the front of bytes just where
/// its text as it is written stands there. One at most does, and none is long.
pub fn heads_are_of_settings()
    ensures read { WrittenLinesAreRead }
    ensures best { BestTextsAreWritten }
    ensures heads { BestHeadsAreWritten }
    ensures texts { TextsAreOfHeads }
    ensures one { HeadsAreOne }
    ensures short { HeadTextsAreShort }
{}
