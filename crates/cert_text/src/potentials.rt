//! Potentials read from pieces.

ghost use Rattle.std.specs.Prelude.{◌≡◌, ◌+◌, ◌^◌, ◌≤◌, [], ℕ, false, nat_lt, None, Some, Err, IfErr, IfOk, length};
ghost use Rattle.cert_text.specs.PotentialReading.{potential_line_start, potentials_on};
ghost use Rattle.cert_text.specs.StatedLines.{IsStatedLine, is_of_potential, stated_bytes};
ghost use Rattle.cert_text.specs.PotentialTakes.{RefusesPotential, TakesPotential};

use crate::answers::CertFault;
use crate::potential::Potential;
use crate::stated_line::{StatedLine, StatedStep, StatedStop};
use std::marker::Model;

/// Reads the lines of potentials, and the line `claims` behind them, from pieces of any size.
#[derive(Drop)]
pub struct Potentials {
    next: u64,
    used: u64,
    line: StatedLine,
    count: u64,
    given: u64,
    done: bool,
    refused: Option<u64>,
}

impl Model for Potentials {
    ghost use Rattle.cert_text.specs.PotentialReading.{IsPotentialReading, PotentialReading};
    ghost use Rattle.cert_text.specs.StatedLines.{stated_bytes};

    ghost Value = { PotentialReading };

    ghost view = { λ p. record {
      next = p.next;
      used = p.used;
      begun = stated_bytes p.line;
      count = p.count;
      given = p.given;
      done = p.done;
      refused = p.refused;
    } };

    ghost invariant = { λ p. IsPotentialReading p.next p.used p.line p.count p.given };
}

/// What was taken of a piece: how many of its bytes, and the potential whose line ended there.
#[derive(Clone, Copy, Debug, PartialEq, Eq)]
pub struct TakenPotential {
    pub used: usize,
    /// None where the line `claims` ended, or the piece before a line did. All of the piece was
    /// used in the second case.
    pub potential: Option<Potential>,
    /// Whether the line `claims` ended.
    pub done: bool,
}

/// What is read where a line that is owed begins: of a potential, or `claims`.
fn owed_line(given: u64, count: u64) -> StatedLine
    ensures line { IsStatedLine result }
    ensures kind { is_of_potential result ≡ nat_lt given count }
    ensures none { stated_bytes result ≡ [] }
{
    if given < count {
        StatedLine::Nothing
    } else {
        StatedLine::Claims(0)
    }
}

impl Potentials {
    /// Reads on from a byte, counted from 0, at which the line of the first of so many potentials
    /// begins.
    pub fn new(at: u64, count: u64) -> Potentials
        requires { at ≤ 2 ^ 40 }
        ensures { result ≡ record {
          next = at;
          used = 0;
          begun = [];
          count = count;
          given = 0;
          done
              = false;
          refused = None;
        } }
    {
        Potentials {
            next: at,
            used: 0,
            line: owed_line(0, count),
            count,
            given: 0,
            done: false,
            refused: None,
        }
    }

    /// Takes the next piece, up to the end of a line. The rest of it is the next piece.
    ///
    /// A line is refused, by the place of its first byte, as soon as its bytes so far begin no line
    /// that is owed; every later call answers the same.
    pub fn take(&mut self, piece: &[u8]) -> Result<TakenPotential, CertFault>
        requires room { self.old.used + length piece.now ≤ 2 ^ 40 }
        requires more { self.old.done ≡ false }
        ensures taken { self.old.refused ≡ None →
            IfOk result (λ taken. TakesPotential self.old piece.now taken self.new) }
        ensures word { self.old.refused ≡ None →
            IfErr result (λ answer. RefusesPotential self.old piece.now answer self.new) }
        ensures again { (at : ℕ) → self.old.refused ≡ Some at → result
            ≡ Err (CertFault.CertWord at) }
        ensures kept { (at : ℕ) → self.old.refused ≡ Some at → self.new ≡ self.old }
    {
        if let Some(at) = self.refused {
            return Err(CertFault::CertWord { at });
        }
        let StatedStop { used, step } = self.line.read(piece);
        match step {
            StatedStep::Goes(line) => {
                self.go_on(used, line, self.given);
                Ok(TakenPotential {
                    used,
                    potential: None,
                    done: false,
                })
            }
            StatedStep::Ends(Some(potential)) => {
                let given = self.given + 1;
                self.go_on(used, owed_line(given, self.count), given);
                Ok(TakenPotential {
                    used,
                    potential: Some(potential),
                    done: false,
                })
            }
            StatedStep::Ends(None) => {
                self.go_on(used, owed_line(self.given, self.count), self.given);
                self.done = true;
                Ok(TakenPotential {
                    used,
                    potential: None,
                    done: true,
                })
            }
            StatedStep::Wrong => {
                let at = self.next - self.line.len();
                self.refused = Some(at);
                Err(CertFault::CertWord { at })
            }
        }
    }

    /// So many bytes more were used, so many potentials were given, and this is the line that was
    /// begun.
    fn go_on(&mut self, used: usize, line: StatedLine, given: u64)
        requires line { IsStatedLine line }
        requires kind { is_of_potential line ≡ nat_lt given self.old.count }
        requires few { given ≤ self.old.count }
        requires limit { self.old.used + used ≤ 2 ^ 40 }
        requires within { length (stated_bytes line) ≤ self.old.used + used }
        ensures { self.new ≡ potentials_on self.old used (stated_bytes line) given }
    {
        self.line = line;
        self.next += used as u64;
        self.used += used as u64;
        self.given = given;
    }

    /// What the end of the bytes is, here: a line that was begun isn't ended, or one is wanting; or
    /// a line was refused.
    pub fn end(&self) -> CertFault
        requires { self.now.done ≡ false }
        ensures again { (at : ℕ) → self.now.refused ≡ Some at → result ≡ CertFault.CertWord at }
        ensures end { self.now.refused ≡ None → result ≡ CertFault.CertEnd
            (potential_line_start self.now) }
    {
        if let Some(at) = self.refused {
            return CertFault::CertWord { at };
        }
        let at = self.next - self.line.len();
        CertFault::CertEnd { at }
    }
}
