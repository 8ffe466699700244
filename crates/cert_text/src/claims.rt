//! Claims read from pieces.

ghost use Rattle.std.specs.Prelude.{◌≡◌, ◌≢◌, ◌+◌, ◌^◌, ◌≤◌, [], ℕ, None, Some, Err, IfOk, IfErr, IsOk, length};
ghost use Rattle.cert_text.specs.Begun.{IsBegun, begun_bytes};
ghost use Rattle.cert_text.specs.Reading.{line_start, read_on};
ghost use Rattle.cert_text.specs.Takes.{Refuses, Takes};

use crate::answers::CertFault;
use crate::begun::{Begun, Step, Stop};
use crate::claim::Claim;
use std::marker::Model;

/// Reads the lines of claims from pieces of any size.
#[derive(Drop)]
pub struct Claims {
    next: u64,
    used: u64,
    begun: Begun,
    refused: Option<u64>,
}

impl Model for Claims {
    ghost use Rattle.cert_text.specs.Begun.{begun_bytes};
    ghost use Rattle.cert_text.specs.Reading.{Reading, IsReading};

    ghost Value = { Reading };

    ghost view = { λ c.
        record { next = c.next; used = c.used; begun = begun_bytes c.begun; refused = c.refused } };

    ghost invariant = { λ c. IsReading c.next c.used c.begun };
}

/// What was taken of a piece: how many of its bytes, and the claim whose line ended there.
#[derive(Clone, Copy, Debug, PartialEq, Eq)]
pub struct Taken {
    pub used: usize,
    /// None where the piece ended before the line did. All of the piece was used then.
    pub claim: Option<Claim>,
}

impl Claims {
    /// Reads on from a byte, counted from 0, at which a line begins.
    pub fn new(at: u64) -> Claims
        requires { at ≤ 2 ^ 40 }
        ensures { result ≡ record { next = at; used = 0; begun = []; refused = None } }
    {
        Claims {
            next: at,
            used: 0,
            begun: Begun::Nothing,
            refused: None,
        }
    }

    /// Takes the next piece, up to the end of a line. The rest of it is the next piece.
    ///
    /// A line is refused, by the place of its first byte, as soon as its bytes so far begin no
    /// claim's line; every later call answers the same.
    pub fn take(&mut self, piece: &[u8]) -> Result<Taken, CertFault>
        requires { self.old.used + length piece.now ≤ 2 ^ 40 }
        ensures taken { self.old.refused ≡ None →
            IfOk result (λ taken. Takes self.old piece.now taken self.new) }
        ensures word { self.old.refused ≡ None →
            IfErr result (λ answer. Refuses self.old piece.now answer self.new) }
        ensures again { (at : ℕ) → self.old.refused ≡ Some at → result
            ≡ Err (CertFault.CertWord at) }
        ensures kept { (at : ℕ) → self.old.refused ≡ Some at → self.new ≡ self.old }
    {
        if let Some(at) = self.refused {
            return Err(CertFault::CertWord { at });
        }
        let Stop { used, step } = self.begun.read(piece);
        match step {
            Step::Goes(begun) => {
                self.go_on(used, begun);
                Ok(Taken { used, claim: None })
            }
            Step::Ends(claim) => {
                self.go_on(used, Begun::Nothing);
                Ok(Taken {
                    used,
                    claim: Some(claim),
                })
            }
            Step::Wrong => {
                let at = self.next - self.begun.len();
                self.refused = Some(at);
                Err(CertFault::CertWord { at })
            }
        }
    }

    /// So many bytes more were used, and this is the line that was begun.
    fn go_on(&mut self, used: usize, begun: Begun)
        requires begun { IsBegun begun }
        requires limit { self.old.used + used ≤ 2 ^ 40 }
        requires within { length (begun_bytes begun) ≤ self.old.used + used }
        ensures { self.new ≡ read_on self.old used (begun_bytes begun) }
    {
        self.begun = begun;
        self.next += used as u64;
        self.used += used as u64;
    }

    /// What the end of the bytes is, here: it is wrong within a line, and after a line that was
    /// refused.
    pub fn end(&self) -> Result<(), CertFault>
        ensures again { (at : ℕ) → self.now.refused ≡ Some at → result
            ≡ Err (CertFault.CertWord at) }
        ensures end { self.now.refused ≡ None → self.now.begun ≢ [] →
            result ≡ Err (CertFault.CertEnd (line_start self.now)) }
        ensures ok { self.now.refused ≡ None → self.now.begun ≡ [] → IsOk result }
    {
        if let Some(at) = self.refused {
            return Err(CertFault::CertWord { at });
        }
        let begun = self.begun.len();
        if begun == 0 {
            return Ok(());
        }
        let at = self.next - begun;
        Err(CertFault::CertEnd { at })
    }
}
