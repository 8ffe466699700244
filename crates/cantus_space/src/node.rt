//! What stands for a path while a search is there.

ghost use Rattle.std.specs.Prelude.{◌≡◌, ◌+◌, ◌*◌, ◌<◌, ◌≤◌, ◌^◌, [], ◌∷◌, List, MatchOption, false, length, take};
ghost use Rattle.fux_pitch.specs.declared.pitch.Pitch.{Pitch as APitch};
ghost use Rattle.melody_rules.specs.Gauges.{beyond_fourth};
ghost use Rattle.cantus_space.specs.Cantus.{IsPlan};
ghost use Rattle.cantus_space.specs.Melody as melody;
ghost use Rattle.cantus_space.specs.Melody.{climax_bar, moves_one_way};
ghost use Rattle.cantus_space.specs.Nodes.{HasPitches, IsNodeOf};
ghost use Rattle.cantus_space.specs.Rules as rules;

use crate::costs::{Gauged, gauge_cost, note_cost};
use crate::melody::{goes_on, least_ends, note_charge, top_after};
use crate::notes::{breaks_some_rule, times_struck};
use crate::plan::CantusPlan;
use crate::pools::is_in_pool;
use crate::prices::CantusPrices;
use fux_grid::Cell;
use fux_pitch::{Pitch, semitone};
use melody_rules::{
    Climax, Compass, Leaps, VoiceNotes, climax_with, is_narrow, leap_excess, leaps_with, noted,
    silent,
};
use penalty_sheet::Sheet;

/// Pitches that begin a cantus and break no rule, what rules and gauges keep of them, and what they
/// cost so far.
#[derive(Clone, Copy, Debug, PartialEq, Eq)]
pub struct CantusNode {
    pub len: usize,
    pub(crate) pitches: [Pitch; 24],
    pub notes: VoiceNotes,
    pub climax: Climax,
    pub leaps: Leaps,
    /// How many notes were beyond the fourth of their pitch.
    pub beyond: u8,
    /// How many moves on end go one way.
    pub moves: u8,
    /// The bar in which the greatest key first sounds.
    pub top: u8,
    pub(crate) paid: u64,
    /// What C1, C3, C5 and C6 cost so far.
    pub(crate) charged: u64,
}

impl CantusNode {
    /// No pitches.
    pub(crate) fn start(plan: &CantusPlan) -> CantusNode
        ensures pitches { HasPitches [] result }
        ensures paid { result.paid ≡ 0 }
        ensures charged { result.charged ≡ 0 }
    {
        CantusNode {
            len: 0,
            pitches: [plan.low; 24],
            notes: silent(),
            climax: Climax {
                greatest: 0,
                count: 0,
            },
            leaps: Leaps {
                last: None,
                notes: 0,
                leaps: 0,
            },
            beyond: 0,
            moves: 0,
            top: 0,
            paid: 0,
            charged: 0,
        }
    }

    /// Its pitches, from the oldest to the newest.
    fn pitches(&self) -> &[Pitch]
        requires { self.now.len ≤ 24 }
        ensures { result.now ≡ take self.now.len self.now.pitches }
    {
        &self.pitches[..self.len]
    }

    /// Whether a pitch may come after these.
    fn may_go_on(&self, plan: &CantusPlan, pitch: Pitch) -> bool
        requires room { self.now.len < plan.now.bars }
        ensures { (behind : List APitch) → HasPitches behind self.now → result
            ≡ rules.may_come plan.now behind pitch }
    {
        is_in_pool(plan, self.len + 1, pitch) && !breaks_some_rule(&self.notes, pitch)
    }

    /// What a pitch after these costs.
    pub(crate) fn cost(&self, sheet: &Sheet, pitch: Pitch) -> u64
        ensures value { (behind : List APitch) → HasPitches behind self.now → result
            ≡ rules.note_cost sheet.now behind pitch }
        ensures bound { result ≤ 131070 }
    {
        note_cost(sheet, &self.notes, pitch)
    }

    /// How many notes are beyond the fourth of their pitch once one more of this pitch has come.
    fn beyond_with(&self, pitch: Pitch) -> u8
        requires { self.now.len < 24 }
        ensures { (behind : List APitch) → HasPitches behind self.now → result
            ≡ beyond_fourth (pitch ∷ behind) }
    {
        self.beyond
            .saturating_add(u8::from(times_struck(self.pitches(), pitch) >= 4))
    }

    /// How many moves on end go one way once one more pitch has come.
    fn moves_with(&self, pitch: Pitch) -> u8
        requires { self.now.len < 24 }
        ensures { (behind : List APitch) → HasPitches behind self.now → result
            ≡ moves_one_way (pitch ∷ behind) }
    {
        if goes_on(self.notes.before, self.notes.last, pitch) {
            self.moves.saturating_add(1)
        } else {
            1
        }
    }

    /// The bar in which the greatest key first sounds once one more pitch has come.
    fn top_with(&self, pitch: Pitch) -> u8
        requires { self.now.len < 24 }
        ensures { (behind : List APitch) → HasPitches behind self.now → result
            ≡ climax_bar (pitch ∷ behind) }
    {
        let bar = self.len as u8 + 1;
        top_after(self.climax.greatest, semitone(pitch), bar, self.top)
    }

    /// What a pitch after these pays beyond that.
    pub(crate) fn charge(&self, prices: &CantusPrices, pitch: Pitch) -> u64
        requires { self.now.len < 24 }
        ensures value { (behind : List APitch) → HasPitches behind self.now → result
            ≡ melody.note_charge prices.now behind pitch }
        ensures bound { result ≤ 262140 }
    {
        note_charge(
            prices,
            self.moves_with(pitch),
            self.notes.before,
            self.notes.last,
            pitch,
        )
    }

    /// These pitches and one more, which costs so much and pays so much beyond that.
    pub(crate) fn with(&self, pitch: Pitch, cost: u64, charge: u64) -> CantusNode
        requires room { self.now.len < 24 }
        requires cost { self.now.paid + cost < 2 ^ 64 }
        requires charge { self.now.charged + charge < 2 ^ 64 }
        ensures pitches { (behind : List APitch) → HasPitches behind self.now
            → HasPitches (pitch ∷ behind) result }
        ensures paid { result.paid ≡ self.now.paid + cost }
        ensures charged { result.charged ≡ self.now.charged + charge }
    {
        let mut next = *self;
        next.pitches[self.len] = pitch;
        next.len = self.len + 1;
        next.notes = noted(&self.notes, Cell::Start(pitch));
        next.climax = climax_with(self.climax, pitch);
        next.leaps = leaps_with(self.leaps, pitch);
        next.beyond = self.beyond_with(pitch);
        next.moves = self.moves_with(pitch);
        next.top = self.top_with(pitch);
        next.paid = self.paid + cost;
        next.charged = self.charged + charge;
        next
    }

    /// These pitches and one more, where it may come next.
    pub(crate) fn after(&self, plan: &CantusPlan, pitch: Pitch) -> Option<CantusNode>
        requires plan { IsPlan plan.now }
        requires room { self.now.len < plan.now.bars }
        requires paid { self.now.paid < 2 ^ 63 }
        requires charged { self.now.charged < 2 ^ 62 }
        ensures { (behind : List APitch) → IsNodeOf plan.now behind self.now →
            MatchOption result (rules.is_live plan.now (pitch ∷ behind) ≡ false)
            (IsNodeOf plan.now (pitch ∷ behind)) }
    {
        if !self.may_go_on(plan, pitch) {
            return None;
        }
        Some(self.with(
            pitch,
            self.cost(&plan.sheet, pitch),
            self.charge(&plan.prices, pitch),
        ))
    }

    /// Whether no pitch above all of these can come, with so many bars ahead in which one may.
    fn is_last_climax(&self, plan: &CantusPlan, ahead: u8) -> bool
        ensures { (behind : List APitch) → HasPitches behind self.now → ahead ≡ rules.starts_ahead
            plan.now (length behind) → result ≡ rules.is_last_climax plan.now behind }
    {
        ahead == 0 || semitone(plan.high) <= self.climax.greatest
    }

    /// Q17.
    fn least_climax(&self, plan: &CantusPlan, ahead: u8) -> u32
        ensures value { (behind : List APitch) → HasPitches behind self.now → ahead
            ≡ rules.starts_ahead plan.now (length behind) → result ≡ rules.least_climax plan.now
            behind }
        ensures bound { result ≤ 255 }
    {
        if self.is_last_climax(plan, ahead) {
            u32::from(self.climax.count).saturating_sub(1)
        } else {
            0
        }
    }

    /// Q18.
    fn least_compass(&self, plan: &CantusPlan, ahead: u8) -> u32
        ensures value { (behind : List APitch) → HasPitches behind self.now → ahead
            ≡ rules.starts_ahead plan.now (length behind) → result ≡ rules.least_compass plan.now
            behind }
        ensures bound { result ≤ 1 }
    {
        let _ = plan;
        if ahead != 0 {
            return 0;
        }
        u32::from(is_narrow(Compass {
            any: self.len != 0,
            greatest: self.notes.greatest,
            least: self.notes.least,
        }))
    }

    /// C2 and C4, where these are the pitches of all bars.
    fn least_ends(&self, plan: &CantusPlan) -> u64
        ensures value { (behind : List APitch) → HasPitches behind self.now → result
            ≡ melody.least_ends plan.now.prices plan.now.bars behind }
        ensures bound { result ≤ 196605 }
    {
        least_ends(
            &plan.prices,
            plan.bars,
            self.len,
            self.leaps.leaps,
            self.top,
        )
    }

    /// The floor, with so many bars ahead in which a pitch may come.
    pub(crate) fn floor(&self, plan: &CantusPlan, ahead: u8) -> u64
        requires paid { self.now.paid < 2 ^ 63 }
        requires charged { self.now.charged < 2 ^ 62 }
        ensures { (behind : List APitch) → HasPitches behind self.now → self.now.paid
            ≡ rules.paid plan.now.sheet behind → self.now.charged ≡ melody.charged plan.now.prices
            behind → ahead ≡ rules.starts_ahead plan.now (length behind)
            → result ≡ rules.floor_of plan.now behind }
    {
        let said = Gauged {
            climax: self.least_climax(plan, ahead),
            compass: self.least_compass(plan, ahead),
            leaps: leap_excess(self.leaps).saturating_sub(u32::from(ahead)),
            strikes: u32::from(self.beyond),
        };
        self.paid + gauge_cost(&plan.sheet, said) + (self.charged + self.least_ends(plan))
    }
}
