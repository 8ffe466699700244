//! What a certificate of a cantus is about, and whether claims are true.

ghost use Rattle.std.specs.Prelude.{◌≡◌, ◌↔◌, ◌<◌, IsTrue, [], ◌∷◌, ◌++◌, List, length};
ghost use Rattle.cert_text.specs.declared.claim.Claim.TheVariants as claims;
ghost use Rattle.fux_pitch.specs.declared.pitch.Pitch.{Pitch as APitch};
ghost use Rattle.std.specs.List.{find};
ghost use Rattle.rule_law.specs.Voices.{has_rule};
ghost use Rattle.cantus_space.specs.Broken.{rules_claimed};
ghost use Rattle.cantus_space.specs.Known.{HasRoom};
ghost use Rattle.cantus_check.specs.Claims.{IsTrueOf};
ghost use Rattle.cantus_check.specs.Known.{IsJudged, IsJudgedOfSome, order_with};
ghost use Rattle.cantus_check.specs.Writer as words;

use crate::head::CantusHead;
use crate::known::CantusKnown;
use cantus_space::CantusSpace;
use cert_text::Claim;
use cert_tree::ClaimTree;
use fux_grid::pitch_order;
use fux_pitch::Pitch;
use rule_law::RuleSet;
use std::cmp::Ordering;

/// A space of cantus, and the head of a certificate.
#[derive(Drop)]
pub struct CantusCase {
    pub space: CantusSpace,
    pub head: CantusHead,
}

/// How a cantus goes against pitches and one more, where it goes against so many of them in this
/// way.
fn order_after(cantus: &[Pitch], len: usize, before: Ordering, pitch: Pitch) -> Ordering
    ensures { (ps : List APitch) → len ≡ length ps → before ≡ words.pitches_order cantus.now ps →
        result ≡ words.pitches_order cantus.now (ps ++ pitch ∷ []) }
{
    if len < cantus.len() {
        before.then(pitch_order(cantus[len], pitch))
    } else {
        before
    }
}

/// The rules that claims name, in order.
const CLAIMED: [u8; 6] = [2, 4, 6, 7, 8, 9];

/// The least rule that is in a set, of those that claims name.
fn least_rule(broken: RuleSet) -> Option<u8>
    ensures { result ≡ find (has_rule broken.bits) rules_claimed }
{
    broken.first_of(&CLAIMED)
}

impl CantusCase {
    /// How the head's cantus goes against these pitches and one more.
    fn order_after(&self, known: &CantusKnown, pitch: Pitch) -> Ordering
        ensures { (ps : List APitch) → IsJudged self.now.space self.now.head.best known.now ps →
            result ≡ order_with self.now.head.best (ps ++ pitch ∷ []) }
    {
        match &self.head.best {
            None => Ordering::Equal,
            Some((_, cantus)) => order_after(cantus.as_slice(), known.len, known.order, pitch),
        }
    }

    /// What is known of these pitches and one more.
    fn after(&self, known: &CantusKnown, pitch: Pitch) -> CantusKnown
        requires { HasRoom self.now.space known.now.node }
        ensures { (ps : List APitch) → length ps < self.now.space.bars →
            IsJudged self.now.space self.now.head.best known.now ps →
            IsJudged self.now.space self.now.head.best result (ps ++ pitch ∷ []) }
    {
        let _ = self.space.plan();
        CantusKnown {
            node: self.space.longer(&known.node, pitch),
            broken: self.space.broken_with(known.broken, &known.node, pitch),
            order: self.order_after(known, pitch),
            len: known.len.saturating_add(1),
        }
    }

    /// Whether the floor of pitches is no better than the head's cantus.
    fn is_no_better(&self, known: &CantusKnown) -> bool
        requires { IsJudgedOfSome self.now.space self.now.head.best known.now }
        ensures { (ps : List APitch) → IsJudged self.now.space self.now.head.best known.now ps →
            IsTrue result ↔ IsTrueOf self.now.space self.now.head.best ps claims.Floor }
    {
        match &self.head.best {
            None => false,
            Some((penalty, _)) => {
                let floor = self.space.floor(&known.node);
                *penalty < floor || (floor == *penalty && known.order.is_lt())
            }
        }
    }

    /// Whether pitches are the head's cantus.
    fn is_cantus(&self, known: &CantusKnown) -> bool
        ensures { (ps : List APitch) → IsJudged self.now.space self.now.head.best known.now ps →
            IsTrue result ↔ IsTrueOf self.now.space self.now.head.best ps claims.TheScore }
    {
        match &self.head.best {
            None => false,
            Some((_, cantus)) => known.len == cantus.as_slice().len() && known.order.is_eq(),
        }
    }
}

impl ClaimTree for CantusCase {
    ghost use Rattle.std.specs.Prelude.{[], List as Items};
    ghost use Rattle.fux_pitch.specs.declared.pitch.Pitch.{Pitch as APitch};
    ghost use Rattle.cantus_check.specs.Certificates.{Begins, Refutes, tree_of};
    ghost use Rattle.cantus_check.specs.Excluded.{empty_begins, excluded};
    ghost use Rattle.cantus_check.specs.Known.{IsJudged, ways_of};
    ghost use Rattle.cantus_check.specs.WayLaws.{are_ways};
    ghost use Rattle.cantus_check.specs.Writer.{first_claim};

    type Claim = Claim;

    type Known = CantusKnown;

    ghost Node = { Items APitch };

    ghost Leaf = { Items APitch };

    ghost tree = { λ it. tree_of it.space it.head.best };

    ghost root = { λ _. [] };

    ghost ways = { λ it. ways_of it.space };

    ghost own = { λ it. first_claim it.space it.head.best };

    ghost begins = { λ _. Begins };

    ghost refutes = { λ it. Refutes it.space it.head.best };

    ghost is_of = { λ it. IsJudged it.space it.head.best };

    ghost are_ways = { λ it. are_ways it.space it.head.best };

    ghost root_begins = { λ _. empty_begins };

    ghost excludes = { λ it. excluded it.space it.head.best };

    fn depth(&self) -> usize {
        self.space.plan().bars as usize
    }

    fn first(&self) -> CantusKnown {
        CantusKnown {
            node: self.space.no_pitches(),
            broken: RuleSet::EMPTY,
            order: Ordering::Equal,
            len: 0,
        }
    }

    fn next(&self, known: &CantusKnown, from: usize) -> Option<usize> {
        match self.space.next_of_pool(&known.node, from) {
            Some((number, pitch)) => {
                let _ = pitch;
                Some(number)
            }
            None => None,
        }
    }

    fn behind(&self, known: &CantusKnown, number: usize) -> CantusKnown {
        match self.space.next_of_pool(&known.node, number) {
            Some((number, pitch)) => {
                let _ = number;
                self.after(known, pitch)
            }
            None => *known,
        }
    }

    fn is_open(&self, claim: Claim) -> bool {
        match claim {
            Claim::Open => true,
            Claim::Broken(_) => false,
            Claim::NoChain => false,
            Claim::Floor => false,
            Claim::TheScore => false,
        }
    }

    fn own_claim(&self, known: &CantusKnown) -> Claim {
        if self.is_cantus(known) {
            return Claim::TheScore;
        }
        if let Some(rule) = least_rule(known.broken) {
            return Claim::Broken(rule);
        }
        if self.is_no_better(known) {
            Claim::Floor
        } else {
            Claim::Open
        }
    }

    fn is_true(&self, known: &CantusKnown, claim: Claim) -> bool {
        match claim {
            Claim::Open => known.len < self.space.plan().bars as usize,
            Claim::Broken(rule) => known.broken.has(rule),
            Claim::NoChain => false,
            Claim::Floor => self.is_no_better(known),
            Claim::TheScore => self.is_cantus(known),
        }
    }
}
