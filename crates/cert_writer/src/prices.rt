//! Writing a whole certificate of the third form.

ghost use Rattle.std.specs.Prelude.{◌≡◌, ◌<◌, ◌≤◌, ◌^◌, Err, None, IfOk, IfSome, OnOk, length, map};
ghost use Rattle.cert_law.specs.Certificates.{Holds};
ghost use Rattle.cert_law.specs.Writer as words;
ghost use Rattle.cert_writer.specs.Heads.{head_with};
ghost use Rattle.fux_port.specs.Promises.{Fails};
ghost use Rattle.cert_writer.specs.Stating.{FitBehind};
ghost use Rattle.price_check.specs.Woven.{IsLargeWeb};
ghost use Rattle.price_check.specs.Statements.{HasLargeStated};
ghost use Rattle.price_check.specs.PriceLines.{line_of};
ghost use Rattle.cert_writer.specs.Certificates.{EndsUnwritten, IsCut, IsOverlong, IsWhole, OfPriced, least_kept, longest_head};

use crate::answers::PricesWrite;
use crate::copy::head_of;
use crate::head::head_text;
use crate::lists::{least_lines, lines_within, text_behind};
use crate::price_certificate::write_priced;
use cert_law::{Case, weights_are_small};
use cert_text::{CertHead, Form};
use fux_grid::Score;
use fux_pitch::Memory;
use fux_port::Sink;
use price_check::{
    MenuTails, PriceLine, SharpCase, list_floors, list_numbers, lists_are_fit, lists_stated,
    priced_lists, webs_of,
};
use price_rounds::tuned_prices;
use species_space::SpeciesSpace;
use std::alloc::Global;
use std::thread::Threads;

/// Writes the certificate of a head that holds, by the lists that lines state, behind the text of
/// that head. Where one of them keeps too much for a web, the sink is left as it is.
fn write_by_lines<R: Threads + Sync, K: Sink>(
    rt: &R,
    alloc: Global,
    space: &SpeciesSpace<'_>,
    head: &CertHead,
    front: &str,
    lines: &[PriceLine],
    sink: &mut K,
) -> Result<(), PricesWrite>
    requires unmixed { space.now.exercise.mixed ≡ None }
    requires holds { Holds space.now.exercise space.now.sheet head.now }
    requires front { front.now ≡ words.head_text space.now.exercise Form.Third head.now }
    requires fit { FitBehind space.now.exercise space.now.sheet front.now (map line_of lines.now) }
    ensures ok { OnOk result (OfPriced space.now.exercise space.now.sheet head.now
        (IsWhole (K.written sink.old) (K.written sink.new))) }
    ensures cut { result ≡ Err PricesWrite.WriteFault → OfPriced space.now.exercise
        space.now.sheet head.now (IsCut (Fails K.faults K.serves sink.old sink.new)
        (K.written sink.old) (K.written sink.new)) }
    ensures too_long { result ≡ Err PricesWrite.TooLong → OfPriced space.now.exercise
        space.now.sheet head.now IsOverlong }
    ensures large { result ≡ Err PricesWrite.TooLarge → HasLargeStated space.now.exercise
        space.now.sheet (map line_of lines.now) }
    ensures untouched { result ≡ Err PricesWrite.TooLarge → sink.new ≡ sink.old }
    ensures unwritten { EndsUnwritten result → K.written sink.new ≡ K.written sink.old }
    ensures faults { K.faults sink.old ≤ K.faults sink.new }
{
    let exercise = space.exercise();
    let sheet = space.sheet();
    weights_are_small(sheet);
    lists_are_fit();
    let text = text_behind(alloc, front, lines)?;
    let own = lists_stated(alloc, sheet, lines)?;
    let priced = priced_lists(alloc, space, &own)?;
    let webs = webs_of(alloc, &priced)?;
    let numbers = list_numbers(rt, alloc, &priced, &webs)?;
    let floors = list_floors(alloc, &priced, &webs, &numbers)?;
    let case = Case {
        exercise,
        sheet,
        head,
    };
    let tables = MenuTails::new(alloc, exercise, space.tables())?;
    let case = SharpCase::new(case, &tables, lines, &floors);
    write_priced(alloc, &case, text.as_str(), sink)
}

/// Writes it by the least list there is.
fn write_least<R: Threads + Sync, K: Sink>(
    rt: &R,
    alloc: Global,
    space: &SpeciesSpace<'_>,
    head: &CertHead,
    front: &str,
    sink: &mut K,
) -> Result<(), PricesWrite>
    requires unmixed { space.now.exercise.mixed ≡ None }
    requires holds { Holds space.now.exercise space.now.sheet head.now }
    requires front { front.now ≡ words.head_text space.now.exercise Form.Third head.now }
    requires brief { length front.now ≤ longest_head }
    ensures ok { OnOk result (OfPriced space.now.exercise space.now.sheet head.now
        (IsWhole (K.written sink.old) (K.written sink.new))) }
    ensures cut { result ≡ Err PricesWrite.WriteFault → OfPriced space.now.exercise
        space.now.sheet head.now (IsCut (Fails K.faults K.serves sink.old sink.new)
        (K.written sink.old) (K.written sink.new)) }
    ensures too_long { result ≡ Err PricesWrite.TooLong → OfPriced space.now.exercise
        space.now.sheet head.now IsOverlong }
    ensures large { result ≡ Err PricesWrite.TooLarge → IsLargeWeb space.now.exercise
        space.now.sheet least_kept }
    ensures unwritten { EndsUnwritten result → K.written sink.new ≡ K.written sink.old }
    ensures faults { K.faults sink.old ≤ K.faults sink.new }
{
    let lines = least_lines(alloc)?;
    write_by_lines(rt, alloc, space, head, front, &lines, sink)
}

/// Writes it by the lists that were chosen, or by the least one where one of these keeps too much.
fn write_chosen<R: Threads + Sync, K: Sink>(
    rt: &R,
    alloc: Global,
    space: &SpeciesSpace<'_>,
    head: &CertHead,
    front: &str,
    lines: &[PriceLine],
    sink: &mut K,
) -> Result<(), PricesWrite>
    requires unmixed { space.now.exercise.mixed ≡ None }
    requires holds { Holds space.now.exercise space.now.sheet head.now }
    requires front { front.now ≡ words.head_text space.now.exercise Form.Third head.now }
    requires brief { length front.now ≤ longest_head }
    requires fit { FitBehind space.now.exercise space.now.sheet front.now (map line_of lines.now) }
    ensures ok { OnOk result (OfPriced space.now.exercise space.now.sheet head.now
        (IsWhole (K.written sink.old) (K.written sink.new))) }
    ensures cut { result ≡ Err PricesWrite.WriteFault → OfPriced space.now.exercise
        space.now.sheet head.now (IsCut (Fails K.faults K.serves sink.old sink.new)
        (K.written sink.old) (K.written sink.new)) }
    ensures too_long { result ≡ Err PricesWrite.TooLong → OfPriced space.now.exercise
        space.now.sheet head.now IsOverlong }
    ensures large { result ≡ Err PricesWrite.TooLarge → IsLargeWeb space.now.exercise
        space.now.sheet least_kept }
    ensures unwritten { EndsUnwritten result → K.written sink.new ≡ K.written sink.old }
    ensures faults { K.faults sink.old ≤ K.faults sink.new }
{
    match write_by_lines(rt, alloc, space, head, front, lines, sink) {
        Ok(()) => Ok(()),
        Err(PricesWrite::TooLarge) => write_least(rt, alloc, space, head, front, sink),
        Err(PricesWrite::WriteFault) => Err(PricesWrite::WriteFault),
        Err(PricesWrite::TooLong) => Err(PricesWrite::TooLong),
        Err(PricesWrite::Memory) => Err(PricesWrite::Memory),
    }
}

/// The lines of the lists that are sought within a budget, as `best` seeks its prices, where there
/// are some.
fn chosen_lines(
    alloc: Global,
    space: &SpeciesSpace<'_>,
    budget: u32,
    front: &str,
) -> Result<Option<Vec<PriceLine>>, Memory>
    ensures { IfOk result (λ found. IfSome found (λ lines. FitBehind space.now.exercise
        space.now.sheet front.now (map line_of lines.items))) }
{
    let Some(tuned) = tuned_prices(alloc, space, budget)? else {
        return Ok(None);
    };
    lines_within(alloc, space.exercise(), space.sheet(), &tuned, front)
}

/// A penalty has 64 bits. It does nothing.
fn penalty_fits(best: Option<(&Score, u64)>)
    ensures { IfSome best.entry (λ it. it.1 < 2 ^ 64) }
{
    if let Some((_score, penalty)) = best {
        let _ = penalty;
    }
}

/// Writes the certificate of the third form, of the best setting with its penalty, or the one that
/// says that no setting is lawful. Its lists are sought within a budget, as `best` seeks its
/// prices: which they are isn't promised, but that none of them keeps too much for a web. Where no
/// others are found that do, it is the least list there is. The exercise isn't mixed: claims don't
/// name the rules of mixed ones. Its length is counted before its first byte is written, and all
/// memory is taken before that.
pub fn certify_prices<K: Sink, R: Threads + Sync>(
    rt: &R,
    alloc: Global,
    space: &SpeciesSpace<'_>,
    best: Option<(&Score, u64)>,
    budget: u32,
    sink: &mut K,
) -> Result<(), PricesWrite>
    requires unmixed { space.now.exercise.mixed ≡ None }
    requires holds { Holds space.now.exercise space.now.sheet (head_with best) }

    // What is written is a valid certificate.
    ensures ok { OnOk result (OfPriced space.now.exercise space.now.sheet (head_with best.entry)
        (IsWhole (K.written sink.old) (K.written sink.new))) }

    // A fault of writing is the sink's, which didn't promise to take that certificate, and less
    // than it was written.
    ensures cut { result ≡ Err PricesWrite.WriteFault → OfPriced space.now.exercise
        space.now.sheet (head_with best.entry) (IsCut (Fails K.faults K.serves sink.old sink.new)
        (K.written sink.old) (K.written sink.new)) }

    // Nothing is written of a certificate that is too long, nor where a web is too large or there
    // is not enough memory. A web is only where that of the least list is.
    ensures too_long { result ≡ Err PricesWrite.TooLong → OfPriced space.now.exercise
        space.now.sheet (head_with best.entry) IsOverlong }
    ensures large { result ≡ Err PricesWrite.TooLarge → IsLargeWeb space.now.exercise
        space.now.sheet least_kept }
    ensures unwritten { EndsUnwritten result → K.written sink.new ≡ K.written sink.old }
    ensures faults { K.faults sink.old ≤ K.faults sink.new }
{
    let exercise = space.exercise();
    let sheet = space.sheet();
    penalty_fits(best);
    let head = head_of(alloc, best)?;
    let front = head_text(alloc, exercise, sheet, Form::Third, &head)?;
    match chosen_lines(alloc, space, budget, front.as_str())? {
        Some(lines) => write_chosen(rt, alloc, space, &head, front.as_str(), &lines, sink),
        None => write_least(rt, alloc, space, &head, front.as_str(), sink),
    }
}
