//! What is known of a prefix of which a claim is judged.

ghost use Rattle.std.specs.Prelude.{◌≡◌, ◌<◌, ◌≤◌, ◌*◌, ℕ, ◌||◌, [], length};
ghost use Rattle.cert_law.specs.Cases.{IsCase, Matter, matter_of};
ghost use Rattle.cert_law.specs.Prefixes.{IsJudged, IsJudgedAfter, IsOrderAfter};
ghost use Rattle.fux_grid.specs.Exercises.{IsValid, columns_in};
ghost use Rattle.rule_law.specs.Voices.{has_rule};

use crate::case::Case;
use cert_text::CertHead;
use fux_grid::{Column, Exercise, order};
use fux_judge::{State, least, step};
use penalty_sheet::Sheet;
use rule_law::RuleSet;
use std::cmp::Ordering;

/// What is known of a prefix: what the judge keeps of it, the rules of which a strict break is
/// settled in it, what is paid of it, what its lines cost at least, and how the head's setting goes
/// against it by the first column at which they differ.
#[derive(Clone, Copy)]
pub struct Judged {
    pub state: State,
    pub broken: RuleSet,
    pub paid: u64,
    pub least: u64,
    pub order: Ordering,
}

/// The rules of either set.
pub(crate) fn joined(a: RuleSet, b: RuleSet) -> RuleSet
    ensures { (r : ℕ) → has_rule result.bits r ≡ (has_rule a.bits r || has_rule b.bits r) }
{
    RuleSet {
        bits: a.bits | b.bits,
    }
}

impl Judged {
    /// What is known of the empty prefix.
    pub fn start(ex: &Exercise, sheet: &Sheet) -> Judged
        requires { IsValid ex.now }
        ensures { (t : Matter) → t.exercise ≡ ex.now → t.sheet ≡ sheet.now → IsJudged t [] result }
    {
        let state = State::start(ex);
        Judged {
            state,
            broken: RuleSet::EMPTY,
            paid: 0,
            least: least(ex, sheet, &state),
            order: Ordering::Equal,
        }
    }

    /// How the head's setting goes against the prefix with a column more.
    fn order_after(&self, case: &Case<'_>, column: &Column) -> Ordering
        requires case { IsCase (matter_of case.now) }
        requires room { self.now.state.newest.len < columns_in case.now.exercise.now }
        requires full { length column.now.items ≡ case.now.exercise.now.voices }
        ensures { IsOrderAfter (matter_of case.now) self.now column.now.items result }
    {
        match case.head {
            CertHead::Nothing => Ordering::Equal,
            CertHead::Best { score, .. } => {
                let sung = score.column(self.state.newest.len);
                self.order.then(order(sung, column))
            }
        }
    }

    /// What is known of the prefix with a column more.
    pub fn after(&self, case: &Case<'_>, column: &Column) -> Judged
        requires case { IsCase (matter_of case.now) }
        requires room { self.now.state.newest.len < columns_in case.now.exercise.now }
        requires full { length column.now.items ≡ case.now.exercise.now.voices }
        requires small { self.now.paid ≤ self.now.state.newest.len * 134217728 }
        ensures { IsJudgedAfter (matter_of case.now) self.now column.now.items result }
    {
        let verdict = step(case.exercise, case.sheet, &self.state, column);
        Judged {
            state: verdict.state,
            broken: joined(self.broken, verdict.broken),
            paid: self.paid + verdict.paid,
            least: verdict.least,
            order: self.order_after(case, column),
        }
    }
}
