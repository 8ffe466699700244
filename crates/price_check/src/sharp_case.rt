//! A case with the lists that lines state, as a tree of claims: its prefixes are the nodes.

ghost use Rattle.std.specs.Prelude.{◌≡◌, ◌≤◌, ◌↔◌, IfSome, IsTrue, length, map};
ghost use Rattle.cert_law.specs.Bases.{HasTails, basis_of};
ghost use Rattle.cert_law.specs.Cases.{IsCase, matter_of};
ghost use Rattle.cert_law.specs.Known.{ways_of};
ghost use Rattle.cert_tree.specs.Walks.{IsBehind};
ghost use Rattle.price_check.specs.Floors.{AreFor, list_of};
ghost use Rattle.price_check.specs.Sharps.{IsSharpKnown, IsStepOf, lists_in, own_in, tree_in, webbed};
ghost use Rattle.price_check.specs.declared.floors.TheConstants.{MOST_LISTS};
ghost use Rattle.price_check.specs.Stated.{AreStated};
ghost use Rattle.price_check.specs.PriceLines.{line_of};

use crate::floors::{ListFloor, MOST_LISTS, first_places, next_places, tail_by};
use crate::line::PriceLine;
use crate::tails::MenuTails;
use cert_law::{Case, PrefixKnown, TailedCase, first_claim, is_open, is_true};
use cert_text::{CertHead, Claim};
use cert_tree::ClaimTree;
use priced_paths::Place;
use std::marker::Model;

/// What is known of a prefix: what is known of it without lists, where it stands in the web of each
/// list, and its tail by the lists.
#[derive(Clone, Copy)]
pub struct SharpKnown {
    pub own: PrefixKnown,
    pub places: [Option<Place>; MOST_LISTS],
    pub tail: Option<u64>,
}

/// A case, and the lists that lines state, by which its claims are judged.
#[derive(Drop)]
pub struct SharpCase<'a, 'f> {
    case: Case<'a>,
    plain: TailedCase<'a, MenuTails<'a>>,
    lines: &'a [PriceLine],
    floors: &'a [ListFloor<'f>],
}

impl<'a, 'f> Model for SharpCase<'a, 'f> {
    ghost use Rattle.std.specs.Prelude.{map};
    ghost use Rattle.cert_law.specs.Cases.{matter_of};
    ghost use Rattle.price_check.specs.Sharps.{IsSharp, Sharp, webbed};
    ghost use Rattle.price_check.specs.PriceLines.{line_of};

    ghost Value = { Sharp };

    ghost view = { λ s. record {
      case = matter_of s.case;
      lines = map line_of s.lines.now;
      floors = map webbed s.floors.now;
    } };

    ghost invariant = { λ s. IsSharp (matter_of s.case) (map line_of s.lines.now) s.plain
        s.floors.now };
}

impl<'a, 'f> SharpCase<'a, 'f> {
    /// A case with the lists that lines state, for its exercise and its sheet.
    pub fn new(
        case: Case<'a>,
        tables: &'a MenuTails<'a>,
        lines: &'a [PriceLine],
        floors: &'a [ListFloor<'f>],
    ) -> SharpCase<'a, 'f>
        requires case { IsCase (matter_of case) }
        requires tables { HasTails (matter_of case) (basis_of tables.now) }
        requires few { length floors.now ≤ MOST_LISTS }
        requires own { AreFor case.exercise.now case.sheet.now floors.now }
        requires stated { AreStated case.sheet.now (map line_of lines.now) (map list_of floors.now) }
        ensures { result ≡ record {
          case = matter_of case.entry;
          lines = map line_of lines.entry.now;
          floors = map webbed floors.entry.now;
        } }
    {
        let plain = TailedCase::new(case, tables);
        SharpCase {
            case,
            plain,
            lines,
            floors,
        }
    }

    /// The head of the certificate.
    pub fn head(&self) -> &CertHead
        ensures { result.now ≡ self.now.case.head }
    {
        self.case.head
    }

    /// What each keeps: it is a case, and its lists are those that its lines state. It does
    /// nothing; callers that prove something about a case learn this from it.
    pub fn kept(&self)
        ensures case { IsCase self.now.case }
        ensures stated { AreStated self.now.case.sheet self.now.lines (lists_in self.now) }
    {
        let _ = &self.plain;
    }

    /// Whether a claim is true of an open prefix with the column of a number more, by the lists and
    /// all that is known of that then.
    fn judge_by_lists(
        &self,
        known: &SharpKnown,
        number: usize,
        claim: Claim,
        found: &mut Option<SharpKnown>,
    ) -> bool
        requires { IsStepOf self.now number known.now }
        ensures told { IsBehind (IsSharpKnown self.now) (ways_of self.now.case.exercise) known.now number
            (λ q. IsTrue result ↔ (tree_in self.now).IsTrueOf q claim) }
        ensures found { IfSome found.new (λ next. IsBehind (IsSharpKnown self.now)
            (ways_of self.now.case.exercise) known.now number (IsSharpKnown self.now next)) }
    {
        let next = self.behind(known, number);
        *found = Some(next);
        self.is_true(&next, claim)
    }

    /// The first claim that is true of such a prefix, as `judge_by_lists`.
    fn tell_by_lists(
        &self,
        known: &SharpKnown,
        number: usize,
        found: &mut Option<SharpKnown>,
    ) -> Claim
        requires { IsStepOf self.now number known.now }
        ensures own { IsBehind (IsSharpKnown self.now) (ways_of self.now.case.exercise) known.now number
            (λ q. result ≡ own_in self.now q) }
        ensures found { IfSome found.new (λ next. IsBehind (IsSharpKnown self.now)
            (ways_of self.now.case.exercise) known.now number (IsSharpKnown self.now next)) }
    {
        let next = self.behind(known, number);
        *found = Some(next);
        self.own_claim(&next)
    }
}

impl<'a, 'f> ClaimTree for SharpCase<'a, 'f> {
    ghost use Rattle.std.specs.Prelude.{[], List as Items};
    ghost use Rattle.cert_law.specs.Certificates.{Begins};
    ghost use Rattle.cert_law.specs.Known.{ways_of};
    ghost use Rattle.cert_law.specs.WayLaws.{empty_begins};
    ghost use Rattle.fux_grid.specs.declared.cell.Cell.{Cell as ACell};
    ghost use Rattle.price_check.specs.Sharps.{IsSharpKnown, RefutesExcluded, excluded, own_in, sharp_ways, tree_in};

    type Claim = Claim;

    type Known = SharpKnown;

    ghost Node = { Items (Items ACell) };

    ghost Leaf = { Items (Items ACell) };

    ghost tree = { tree_in };

    ghost root = { λ _. [] };

    ghost ways = { λ it. ways_of it.case.exercise };

    ghost own = { own_in };

    ghost begins = { λ _. Begins };

    ghost refutes = { RefutesExcluded };

    ghost is_of = { IsSharpKnown };

    ghost are_ways = { sharp_ways };

    ghost root_begins = { λ _. empty_begins };

    ghost excludes = { excluded };

    fn depth(&self) -> usize {
        self.plain.depth()
    }

    fn first(&self) -> SharpKnown {
        let own = self.plain.first();
        let places = first_places(self.floors);
        let tail = tail_by(self.floors, &places, &own.judged);
        SharpKnown { own, places, tail }
    }

    fn next(&self, known: &SharpKnown, from: usize) -> Option<usize> {
        self.plain.next(&known.own, from)
    }

    fn behind(&self, known: &SharpKnown, number: usize) -> SharpKnown {
        let own = self.plain.behind(&known.own, number);
        let places = next_places(self.floors, &known.places, number);
        let tail = tail_by(self.floors, &places, &own.judged);
        SharpKnown { own, places, tail }
    }

    fn is_open(&self, claim: Claim) -> bool {
        is_open(claim)
    }

    fn is_true(&self, known: &SharpKnown, claim: Claim) -> bool {
        is_true(&self.case, &known.own.judged, known.tail, claim)
    }

    fn judge_behind(
        &self,
        known: &mut SharpKnown,
        number: usize,
        claim: Claim,
        found: &mut Option<SharpKnown>,
    ) -> bool {
        // A strict break is told without lists.
        if let Claim::Broken(_) = claim {
            return self
                .plain
                .judge_behind(&mut known.own, number, claim, &mut None);
        }
        self.judge_by_lists(known, number, claim, found)
    }

    fn own_claim(&self, known: &SharpKnown) -> Claim {
        first_claim(&self.case, &known.own.judged, known.tail)
    }

    fn tell_behind(
        &self,
        known: &mut SharpKnown,
        number: usize,
        found: &mut Option<SharpKnown>,
    ) -> Claim {
        // A strict break is told without lists.
        let plain = self.plain.tell_behind(&mut known.own, number, &mut None);
        if let Claim::Broken(_) = plain {
            return plain;
        }
        self.tell_by_lists(known, number, found)
    }
}
