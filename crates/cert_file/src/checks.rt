//! Checkers of claims.

ghost use Rattle.std.specs.Prelude.{◌≡◌, ◌≢◌, ◌+◌, ◌^◌, ◌<◌, ◌≤◌, [], None, Some, Ok, Err, IfErr, OnErr, OnOk};
ghost use Rattle.cert_text.specs.declared.answers.Refused.{Refused as ARefused};
ghost use Rattle.cert_text.specs.declared.answers.Why.TheVariants as whys;
ghost use Rattle.cert_file.specs.Checking.{Checking, IsFedCertificate, IsFedNone, Refuses, Takes};
ghost use Rattle.cert_file.specs.Subjects.{Subject};

use cert_text::{Accepted, Claim, Refused};

/// Judges the claims of a certificate one by one, whatever the certificate is about.
pub trait Checks {
    /// What is asked.
    ghost Asked: { Type 0 };

    /// What stands in front of claims.
    ghost Head: { Type 0 };

    /// The nodes of which claims are.
    ghost Node: { Type 0 };

    /// What certificates are about, where this is asked.
    ghost subject: { Asked → Subject Head Node };

    /// What contracts see of a checker.
    ghost seen: { Self → Checking Asked Head Node };

    /// Judges a claim of the node that is owed next. It is taken where it is true of it; after a
    /// refusal every call answers the same.
    fn feed(&mut self, claim: Claim) -> Result<(), Refused>
        requires { (seen self.old).count < 2 ^ 40 }
        ensures taken { (seen self.old).refusal ≡ None → OnOk result
            (Takes (subject (seen self.old).asked) (seen self.old) claim (seen self.new)) }
        ensures refused { (seen self.old).refusal ≡ None
            → IfErr result (λ refused. Refuses (subject (seen self.old).asked) (seen self.old) claim
            refused (seen self.new)) }
        ensures again { (refused : ARefused) → (seen self.old).refusal ≡ Some refused
            → (result ≡ Err refused) × (seen self.new ≡ seen self.old) };

    /// What the claims so far show, where none is owed. What the head says holds then.
    fn finish(&self) -> Result<Accepted, Refused>
        requires { (seen self.now).count ≤ 2 ^ 40 }
        ensures accepted { (seen self.now).refusal ≡ None → (seen self.now).owed ≡ []
            → result ≡ Ok ((subject (seen self.now).asked).accepted (seen self.now).head) }
        ensures short { (seen self.now).refusal ≡ None → (seen self.now).owed ≢ []
            → result ≡ Err (record { number = (seen self.now).count + 1; why = whys.Short }) }
        ensures again { (refused : ARefused) → (seen self.now).refusal ≡ Some refused → result
            ≡ Err refused }
        ensures shown { OnOk result ((subject (seen self.now).asked).Holds (seen self.now).head) }

        // Where all claims since the checker was opened were fed to it: they are a certificate with
        // its head, or not.
        ensures certified { OnOk result (IsFedCertificate (subject (seen self.now).asked)
            (seen self.now)) }
        ensures uncertified { OnErr result (IsFedNone (subject (seen self.now).asked) (seen self.now)) };
}
