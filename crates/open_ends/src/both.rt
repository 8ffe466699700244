//! Two parts as one.

ghost use Rattle.open_ends.specs.Parts.{both, both_after, both_in};

use crate::keeps::Keeps;
use crate::part::OpenPart;
use fux_grid::{Cell, Exercise};

/// What two parts wait for.
#[derive(Clone, Copy, Debug, PartialEq, Eq)]
pub struct Both<P, Q> {
    pub first: P,
    pub second: Q,
}

impl<P: OpenPart, Q: OpenPart> OpenPart for Both<P, Q> {
    ghost nothing = { both P.nothing Q.nothing };

    ghost open_in = { both_in P.open_in Q.open_in };

    ghost open_after = { both_after P.open_after Q.open_after };

    #[inline]
    fn none() -> Both<P, Q> {
        Both {
            first: P::none(),
            second: Q::none(),
        }
    }

    #[inline]
    fn is_same(&self, other: &Both<P, Q>) -> bool {
        self.first.is_same(&other.first) && self.second.is_same(&other.second)
    }

    #[inline]
    fn key(&self, before: u64) -> u64 {
        self.second.key(self.first.key(before))
    }

    #[inline]
    fn after(
        ex: &Exercise,
        keeps: Keeps,
        i: usize,
        kept: &Both<P, Q>,
        before: &[Cell],
        now: &[Cell],
    ) -> Option<Both<P, Q>> {
        let first = P::after(ex, keeps, i, &kept.first, before, now)?;
        let second = Q::after(ex, keeps, i, &kept.second, before, now)?;
        Some(Both { first, second })
    }

    fn lawful_steps_go_on() {
        P::lawful_steps_go_on();
        Q::lawful_steps_go_on();
    }
}
