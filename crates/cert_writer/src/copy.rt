//! The head of a certificate, of a setting that is lent.

ghost use Rattle.std.specs.Prelude.{◌≡◌, IfOk};
ghost use Rattle.cert_writer.specs.Heads.{head_with};

use cert_text::CertHead;
use fux_grid::Score;
use fux_pitch::Memory;
use std::alloc::Global;

/// A copy of a setting.
fn copy_of(alloc: Global, score: &Score) -> Result<Score, Memory>
    ensures { IfOk result (λ copy. copy ≡ score.now) }
{
    score.kept();
    let mut copy = Score::new(alloc, score.voices())?;
    for i in 0..score.len() {
        let column = score.column(i);
        let Ok(()) = copy.push(column.clone()?) else {
            unreachable!()
        };
    }
    Ok(copy)
}

/// The head that says that a setting is the best one, or that none is lawful.
pub fn head_of(alloc: Global, best: Option<(&Score, u64)>) -> Result<CertHead, Memory>
    ensures { IfOk result (λ head. head ≡ head_with best.entry) }
{
    match best {
        Some((score, penalty)) => {
            let score = copy_of(alloc, score)?;
            Ok(CertHead::Best { penalty, score })
        }
        None => Ok(CertHead::Nothing),
    }
}
