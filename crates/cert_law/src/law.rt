//! What a valid certificate shows.

ghost use Rattle.std.specs.Prelude.{ℕ, ◌≤◌, IfSome, List, Option, slice_index};
ghost use Rattle.std.specs.List.{AllByRecursion};
ghost use Rattle.cert_text.specs.declared.answers.Form.{Form};
ghost use Rattle.cert_text.specs.declared.claim.Claim.{Claim};
ghost use Rattle.cert_text.specs.declared.potential.Potential.{Potential};
ghost use Rattle.cert_text.specs.Potentials.{IsPotential};
ghost use Rattle.cert_law.specs.Certificates.{Holds, IsCertificate};
ghost use Rattle.cert_law.specs.Rests.{AreRests, HasSmallWeights, entries_of, stated_in};
ghost use Rattle.cert_law.specs.Writer.{claims_of};
ghost use Rattle.fux_grid.specs.Exercises.{IsValid};

use cert_text::CertHead;
use fux_grid::Exercise;
use penalty_sheet::Sheet;

/// What the head of a valid certificate of either form says holds: its setting is the best one and
/// has its penalty, or no setting is lawful. It does nothing; callers that prove something about a
/// certificate learn this from it.
pub fn shown_by(ex: &Exercise, sheet: &Sheet, head: &CertHead)
    requires valid { IsValid ex.now }
    ensures { (stated : Option (List Potential)) (claims : List Claim)
        → IsCertificate ex.now sheet.now head.now stated claims → Holds ex.now sheet.now head.now }
{
    let _ = ex.voices;
    let _ = sheet;
    let _ = head;
}

/// What the writer's certificate is: of a head that holds, it is valid, in both forms; in the
/// second its entries state the least sums over chains, each below 2^32. It does nothing, as
/// `shown_by`.
pub fn written(ex: &Exercise, sheet: &Sheet, head: &CertHead)
    requires valid { IsValid ex.now }
    ensures rests { (stated : Option (List Potential)) → IfSome stated (AreRests ex.now sheet.now)
        → Holds ex.now sheet.now head.now
        → IsCertificate ex.now sheet.now head.now stated (claims_of ex.now sheet.now head.now) }
    ensures forms { (form : Form) → Holds ex.now sheet.now head.now → IsCertificate ex.now sheet.now
        head.now (stated_in form ex.now sheet.now) (claims_of ex.now sheet.now head.now) }
    ensures small { AllByRecursion IsPotential (entries_of ex.now sheet.now) }
{
    let _ = ex.voices;
    let _ = head;
    weights_are_small(sheet);
}

/// Each number of sixteen bits is below 2^16. It does nothing.
fn bits_are_few(numbers: &[u16])
    ensures { (k : ℕ) → slice_index numbers.now k ≤ 65535 }
{
    let _ = numbers;
}

/// What the type of a sheet keeps of its weights. It does nothing, as `shown_by`.
pub fn weights_are_small(sheet: &Sheet)
    ensures { HasSmallWeights sheet.now }
{
    bits_are_few(&sheet.weights);
}
