//! The settings of an exercise, priced.

ghost use Rattle.std.proofs.Props.{props};
ghost use Rattle.std.specs.Bool.{OnTrue};
ghost use Rattle.std.specs.Prelude.{◌≡◌, ◌<◌, ◌≤◌, ◌^◌, ℕ, length, IfOk, IfSome};
ghost use Rattle.fux_grid.specs.Exercises.{IsValid, columns_in};
ghost use Rattle.fux_grid.specs.Menus.{menu_of};
ghost use Rattle.fux_judge.specs.Links.{given, link_of};
ghost use Rattle.fux_grid.specs.Columns.{cells_before};
ghost use Rattle.open_ends.specs.Ends.{ends_after};
ghost use Rattle.open_ends.specs.Parts.{HasVoices};
ghost use Rattle.priced_floors.specs.Charges.{AreDebts, AreFairCharges, AreSmallCharges};
ghost use Rattle.priced_floors.specs.declared.charges.TheConstants.{CASES, MOST_CHARGE, SCALE};
ghost use Rattle.priced_floors.specs.Kept as words;

use crate::charges::{Charges, debt_in, is_summit, toll_of};
use crate::kept::Kept;
use fux_grid::{Column, Exercise, follows};
use fux_judge::{column_cost, pair_cost};
use fux_pitch::Memory;
use open_ends::{Keeps, OpenEnds, OpenPart, ends_after, mixed};
use penalty_sheet::Sheet;
use priced_paths::Pricing;
use rule_law::cells_of;
use species_space::{Node, SpeciesSpace};
use std::alloc::Global;

/// The settings of an exercise, with what their columns are charged beforehand.
#[derive(Drop)]
pub struct PricedSpace<'a> {
    space: &'a SpeciesSpace<'a>,
    charges: &'a Charges,
    keeps: Keeps,
    /// The debt of each case.
    debts: Vec<u64>,
    ghost fair: { AreFairCharges charges.now space.now.sheet } by { Prim.hlevel props },
    ghost small: { AreSmallCharges MOST_CHARGE charges.now } by { Prim.hlevel props },
    ghost scale: { charges.now.scale ≡ SCALE },
    ghost few: { length charges.now.summits.items ≤ CASES },
    ghost known: { AreDebts space.now.exercise charges.now debts.items },
    ghost whole: { length debts.items ≡ length charges.now.summits.items },
    ghost voices: { HasVoices space.now.exercise } by { Prim.hlevel props },
    ghost short: { columns_in space.now.exercise ≤ 192 },
}

/// What two neighboring columns cost by the rules and tolls that read no more.
fn cost_between<'a>(
    ex: &'a Exercise<'a>,
    sheet: &Sheet,
    i: usize,
    prev: Option<&'a Column>,
    next: &'a Column,
) -> Option<u32>
    requires valid { IsValid ex.now }
    requires place { i < columns_in ex.now }
    ensures value { result ≡ link_of ex.now sheet.now i (given prev.entry) next.now.items }
    ensures bound { IfSome result (λ cost. cost ≤ 2 ^ 25) }
{
    let own = column_cost(ex, sheet, i, next)?;
    let pair = pair_cost(ex, sheet, i, prev, next)?;
    Some((own + pair) as u32)
}

/// Whether two numbers that may be lacking are the same.
fn is_same_number(one: Option<u16>, other: Option<u16>) -> bool
    ensures { OnTrue result (one ≡ other) }
{
    match (one, other) {
        (None, None) => true,
        (Some(m), Some(n)) => m == n,
        _ => false,
    }
}

/// The debt of each case.
fn debts_of(alloc: Global, ex: &Exercise, charges: &Charges) -> Result<Vec<u64>, Memory>
    requires few { length charges.now.summits.items ≤ CASES }
    requires voices { ex.now.voices ≤ 4 }
    ensures known { IfOk result (λ debts. AreDebts ex.now charges.now debts.items) }
    ensures whole { IfOk result (λ debts. length debts.items ≡ length charges.now.summits.items) }
{
    let count = charges.summits.len();
    let mut debts = Vec::with_capacity(alloc, count)?;
    for case in 0..count {
        debts.push_reserved(debt_in(ex, charges, case));
    }
    Ok(debts)
}

impl<'a> PricedSpace<'a> {
    /// The settings of a space's exercise with these charges, where so much is kept of what later
    /// columns decide.
    pub fn new(
        alloc: Global,
        space: &'a SpeciesSpace<'a>,
        keeps: Keeps,
        charges: &'a Charges,
    ) -> Result<PricedSpace<'a>, Memory>
        requires fair { AreFairCharges charges.now space.now.sheet }
        requires small { AreSmallCharges MOST_CHARGE charges.now }
        requires scale { charges.now.scale ≡ SCALE }
        requires few { length charges.now.summits.items ≤ CASES }
        ensures space { IfOk result (λ priced. priced.space.now ≡ space.entry.now) }
        ensures keeps { IfOk result (λ priced. priced.keeps ≡ keeps) }
        ensures charges { IfOk result (λ priced. priced.charges.now ≡ charges.entry.now) }
    {
        let debts = debts_of(alloc, space.exercise(), charges)?;
        Ok(PricedSpace {
            space,
            charges,
            keeps,
            debts,
        })
    }

    /// The column that is kept where so many were chosen, if one is.
    #[inline]
    fn column_kept(&self, depth: usize, kept: &Kept) -> Option<&Column>
        requires { depth < columns_in self.now.space.now.exercise }
        ensures { given result ≡ words.column_kept self.now.space.now.exercise depth kept.now }
    {
        if depth == 0 {
            return None;
        }
        let number = kept.column?;
        self.space.tables().columns(depth - 1).get(number as usize)
    }

    /// What is kept behind a column that follows, and what the step costs.
    fn led_on(
        &self,
        depth: usize,
        kept: &Kept,
        label: usize,
        prev: Option<&Column>,
        next: &Column,
    ) -> Option<(Kept, u32)>
        requires depth { depth < columns_in self.now.space.now.exercise }
        requires label { label < 8192 }
        ensures { result ≡ words.kept_with label (ends_after self.now.space.now.exercise
            self.now.space.now.sheet self.now.keeps depth kept.now.ends (cells_before prev.entry)
            next.now.items) (link_of self.now.space.now.exercise self.now.space.now.sheet depth
            (given prev.entry) next.now.items) }
    {
        let (ex, sheet) = (self.space.exercise(), self.space.sheet());
        let (ends, more) = ends_after(
            ex,
            sheet,
            self.keeps,
            depth,
            &kept.ends,
            cells_of(prev),
            next.as_slice(),
        )?;
        let own = cost_between(ex, sheet, depth, prev, next)?;
        let column = Some(label as u16);
        Some((Kept { column, ends }, own + more))
    }
}

impl<'a> Pricing for PricedSpace<'a> {
    ghost use Rattle.std.specs.Prelude.{length};
    ghost use Rattle.fux_judge.specs.Penalties.{paid};
    ghost use Rattle.species_space.specs.Paths.{prefix_at};
    ghost use Rattle.priced_floors.specs.Charges.{reaches_in, toll_in};
    ghost use Rattle.priced_floors.specs.Kept.{kept_of, step_of};
    ghost use Rattle.priced_floors.specs.Looked.{kept_same};
    ghost use Rattle.priced_floors.specs.PricedLaws.{breadth_of, rate_in, settings_are_priced};

    type Tree = SpeciesSpace<'a>;

    type Kept = Kept;

    ghost tree = { λ priced. priced.space.now };

    ghost kept_of = { λ priced. kept_of priced.space.now.exercise priced.keeps };

    ghost settled_by = { λ priced path. paid priced.space.now.exercise priced.space.now.sheet (prefix_at priced.space.now.exercise path) };

    ghost breadth = { λ priced. breadth_of priced.space.now.exercise };

    ghost step_at = { λ priced. step_of priced.space.now.exercise priced.space.now.sheet priced.keeps };

    ghost toll_at = { λ priced. toll_in priced.space.now.exercise priced.charges.now };

    ghost reaches_at = { λ priced. reaches_in priced.space.now.exercise priced.charges.now };

    ghost count = { λ priced. length priced.charges.now.summits.items };

    ghost rate_of = { λ priced. rate_in priced.space.now.exercise priced.charges.now };

    ghost same = { kept_same };

    ghost priced = { λ priced. settings_are_priced priced.space.now.exercise priced.space.now.sheet priced.keeps priced.charges.now priced.voices priced.fair };

    fn space(&self) -> &SpeciesSpace<'a> {
        self.space
    }

    fn settled(&self, node: &Node) -> u64 {
        node.paid()
    }

    fn start(&self) -> Kept {
        Kept {
            column: None,
            ends: OpenEnds::none(),
        }
    }

    fn labels(&self, depth: usize) -> usize {
        self.space.tables().width(depth)
    }

    fn step(&self, depth: usize, kept: &Kept, label: usize) -> Option<(Kept, u32)> {
        let prev = self.column_kept(depth, kept);
        let next = self.space.tables().column(depth, label);
        if !follows(prev, next) {
            return None;
        }
        self.led_on(depth, kept, label, prev, next)
    }

    fn may_step(&self, depth: usize, kept: &Kept, label: usize) -> bool {
        let prev = self.column_kept(depth, kept);
        let next = self.space.tables().column(depth, label);
        follows(prev, next)
    }

    fn is_same(&self, one: &Kept, other: &Kept) -> bool {
        is_same_number(one.column, other.column) && one.ends.is_same(&other.ends)
    }

    fn key(&self, kept: &Kept) -> u64 {
        let column = match kept.column {
            Some(number) => u64::from(number) + 1,
            None => 0,
        };
        mixed(kept.ends.key(0), column)
    }

    fn cases(&self) -> usize {
        self.charges.summits.len()
    }

    fn toll(&self, case: usize, depth: usize, label: usize) -> Option<u32> {
        let column = self.space.tables().column(depth, label);
        toll_of(self.space.exercise(), self.charges, case, column)
    }

    fn reaches(&self, case: usize, depth: usize, label: usize) -> bool {
        let column = self.space.tables().column(depth, label);
        is_summit(self.charges, case, column)
    }

    fn rate(&self, case: usize) -> (u32, u64) {
        (self.charges.scale, self.debts[case])
    }
}
