//! Whether a claim is true of a prefix, and the first one that is.

ghost use Rattle.std.specs.Prelude.{◌≡◌, ◌+◌, ◌==◌, nat_lt, List};
ghost use Rattle.cert_law.specs.Certificates as certificates;
ghost use Rattle.cert_law.specs.Writer as words;
ghost use Rattle.cert_law.specs.Cases.{IsCase, matter_of};
ghost use Rattle.cert_law.specs.Prefixes.{IsJudged, IsSmall};
ghost use Rattle.cert_law.specs.Truths.{IsFirstClaim, TellsNoBetter, TellsOpen, TellsTruth};
ghost use Rattle.fux_grid.specs.declared.cell.Cell.{Cell as ACell};
ghost use Rattle.fux_grid.specs.Exercises.{IsValid};

use crate::case::Case;
use crate::judged::Judged;
use cert_text::{CertHead, Claim};
use fux_grid::Exercise;
use fux_judge::every_rule;

/// Whether the floor of a prefix with this tail is no better than the head's setting.
pub fn is_no_better(case: &Case<'_>, judged: &Judged, tail: u64) -> bool
    requires { IsSmall judged.now }
    ensures { TellsNoBetter (matter_of case.now) judged.now tail result }
{
    match case.head {
        CertHead::Nothing => false,
        CertHead::Best { penalty, .. } => {
            let spent = judged.paid + judged.least;
            exceeds(*penalty, spent, tail)
                || (equals(*penalty, spent, tail) && judged.order.is_lt())
        }
    }
}

/// Whether two numbers together are above a third.
fn exceeds(most: u64, spent: u64, rest: u64) -> bool
    ensures { result ≡ nat_lt most (spent + rest) }
{
    most < spent || most - spent < rest
}

/// Whether two numbers together are a third.
fn equals(most: u64, spent: u64, rest: u64) -> bool
    ensures { result ≡ (spent + rest == most) }
{
    most >= spent && most - spent == rest
}

/// Whether a prefix is the head's setting.
pub fn is_setting(case: &Case<'_>, judged: &Judged) -> bool
    ensures { (p : List (List ACell)) → IsJudged (matter_of case.now) p judged.now
        → result ≡ words.is_setting_of case.now.head.now p }
{
    match case.head {
        CertHead::Nothing => false,
        CertHead::Best { score, .. } => {
            judged.state.newest.len == score.len() && judged.order.is_eq()
        }
    }
}

/// Whether a prefix isn't complete, and is orderly.
fn can_go_on(ex: &Exercise, judged: &Judged) -> bool
    requires { IsValid ex.now }
    ensures { TellsOpen ex.now judged.now result }
{
    judged.state.newest.len < 8 * ex.bars as usize && !judged.broken.has(3)
}

/// Whether a claim is that the prefix is open.
pub fn is_open(claim: Claim) -> bool
    ensures { result ≡ certificates.is_open claim }
{
    match claim {
        Claim::Open => true,
        Claim::Broken(_) => false,
        Claim::NoChain => false,
        Claim::Floor => false,
        Claim::TheScore => false,
    }
}

/// Whether a claim is true of a prefix that has this tail.
pub fn is_true(case: &Case<'_>, judged: &Judged, tail: Option<u64>, claim: Claim) -> bool
    requires case { IsCase (matter_of case.now) }
    requires small { IsSmall judged.now }
    ensures { TellsTruth (matter_of case.now) judged.now tail claim result }
{
    match claim {
        Claim::Open => can_go_on(case.exercise, judged),
        Claim::Broken(rule) => judged.broken.has(rule),
        Claim::NoChain => tail.is_none(),
        Claim::Floor => match tail {
            Some(tail) => is_no_better(case, judged, tail),
            None => false,
        },
        Claim::TheScore => is_setting(case, judged),
    }
}

/// The first claim that is true of a prefix that has this tail.
pub fn first_claim(case: &Case<'_>, judged: &Judged, tail: Option<u64>) -> Claim
    requires { IsSmall judged.now }
    ensures { IsFirstClaim (matter_of case.now) judged.now tail result }
{
    if is_setting(case, judged) {
        return Claim::TheScore;
    }
    if let Some(rule) = judged.broken.first_of(every_rule()) {
        return Claim::Broken(rule);
    }
    match tail {
        None => Claim::NoChain,
        Some(tail) => {
            if is_no_better(case, judged, tail) {
                Claim::Floor
            } else {
                Claim::Open
            }
        }
    }
}
