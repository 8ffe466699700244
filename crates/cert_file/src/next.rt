//! The claims that are still to come, and their lines.

ghost use Rattle.std.specs.Prelude.{◌≡◌, IfSome};
ghost use Rattle.cert_text.specs.Lines.{IsClaim};
ghost use Rattle.cert_tree.specs.Writing.{claims_to_come, claims_with};
ghost use Rattle.cert_file.specs.Writing.{HaveLines, IsWriting};

use crate::source::{LineSource, line_from};
use arrayvec::ArrayString;
use cert_text::{Claim, write_claim};
use cert_tree::{ClaimTree, Walk};

/// The claim that comes next.
fn next_claim<T: ClaimTree<Claim = Claim>>(it: &T, walk: &mut Walk<T::Known>) -> Option<Claim>
    requires writing { IsWriting (T.tree it.now) (T.is_of it.now) (T.ways it.now) (T.own it.now)
        walk.old }
    requires lines { HaveLines (T.own it.now) }
    ensures writing { IsWriting (T.tree it.now) (T.is_of it.now) (T.ways it.now) (T.own it.now)
        walk.new }
    ensures claim { IfSome result IsClaim }
    ensures claims { claims_to_come (T.tree it.now) (T.own it.now) (T.ways it.now) walk.old
        ≡ claims_with result (claims_to_come (T.tree it.now) (T.own it.now) (T.ways it.now)
        walk.new) }
{
    cert_tree::next_claim(it, walk)
}

/// The lines of the claims of a tree.
#[derive(Drop)]
pub(crate) struct ClaimLines<'a, T: ClaimTree<Claim = Claim>> {
    pub(crate) it: &'a T,
}

impl<'a, T: ClaimTree<Claim = Claim>> LineSource for ClaimLines<'a, T> {
    ghost use Rattle.cert_file.specs.Writing.{HaveLines, IsWriting, lines_left};

    type Place = Walk<T::Known>;

    ghost stands = { λ s walk. HaveLines (T.own s.it.now)
        × IsWriting (T.tree s.it.now) (T.is_of s.it.now) (T.ways s.it.now) (T.own s.it.now) walk };

    ghost left = { λ s walk. lines_left (T.tree s.it.now) (T.ways s.it.now) (T.own s.it.now) walk };

    fn next_line(&self, walk: &mut Walk<T::Known>) -> Option<ArrayString<13>> {
        let Some(claim) = next_claim(self.it, walk) else {
            return None;
        };
        Some(line_from(write_claim(claim).as_str()))
    }
}
