//! The tree of the settings of an exercise whose free voices have a species each.

ghost use Rattle.std.specs.Prelude.{◌≡◌, ◌<◌, ◌≤◌, [], OnOk, IfOk, IfErr, IsTrue, false, length, slice_index_or};
ghost use Rattle.fux_grid.specs.Exercises.{IsValid, columns_in};
ghost use Rattle.fux_grid.specs.Grid.{items_of};
ghost use Rattle.fux_grid.specs.Menus.{menu_of};
ghost use Rattle.floor_tables.specs.Tables.{AreNarrow, TellsWidth};
ghost use Rattle.fux_judge.specs.Late.{SettleNothing};
ghost use Rattle.species_space.specs.Mixed.{IsMixed, exercise_of};
ghost use Rattle.species_space.specs.Nodes.{IsNodeOf, IsTold};
ghost use Rattle.species_space.specs.Paths.{live_with, width_at};
ghost use Rattle.species_space.specs.Task.{IsViewOf};
ghost use Rattle.tree_search.specs.Space.{HasChild, IsMadeChild};

use crate::blocks::MenuView;
use crate::columns::MenuColumns;
use crate::menus::{Menus, first_too_wide, menus_of};
use crate::mixed::Mixed;
use crate::node::Node;
use crate::space::child_by;
use crate::walk::{NoTables, next_unpruned};
use floor_tables::TableFault;
use fux_grid::{Column, Exercise, mixed_as};
use fux_judge::{State, least};
use fux_pitch::Memory;
use penalty_sheet::Sheet;
use rule_law::RuleSet;
use std::alloc::Global;
use std::marker::Model;
use tree_search::{QuestSpace, Space};

/// The settings of an exercise whose free voices have a species each as a tree: a child adds the
/// column of its number, counted from 0, in the menu of the next column. A child is dead where its
/// column doesn't follow, or where a strict break is settled by it.
#[derive(Drop)]
pub struct MixedSpace<'a> {
    exercise: Exercise<'a>,
    sheet: &'a Sheet,
    menus: Menus,
}

impl<'a> Model for MixedSpace<'a> {
    ghost use Rattle.floor_tables.specs.Tables.{Task};
    ghost use Rattle.species_space.specs.MixedMenus.{IsReady};

    ghost Value = { Task };

    ghost view = { λ s. record { exercise = s.exercise; sheet = s.sheet.now } };

    ghost invariant = { λ s. IsReady s.exercise s.menus };
}

impl<'a> MixedSpace<'a> {
    /// The space of an exercise with the species of its voices, by a sheet. It takes all its memory
    /// here.
    pub fn new(
        alloc: Global,
        m: &'a Mixed<'a>,
        sheet: &'a Sheet,
    ) -> Result<MixedSpace<'a>, TableFault>
        requires { IsMixed m.now }
        ensures made { IfOk result (λ space. space ≡ record {
          exercise = exercise_of m.entry.now;
          sheet
              = sheet.entry.now;
        }) }
        ensures narrow { OnOk result (AreNarrow (exercise_of m.entry.now)) }
        ensures wide { IfErr result (TellsWidth (exercise_of m.entry.now)) }
    {
        let exercise = mixed_as(m.ex, m.species);
        if let Some((place, count)) = first_too_wide(&exercise) {
            return Err(TableFault::TooWide { place, count });
        }
        let Ok(menus) = menus_of(alloc, &exercise) else {
            return Err(TableFault::Memory);
        };
        Ok(MixedSpace {
            exercise,
            sheet,
            menus,
        })
    }

    /// The columns of the menu of place i, in reading order.
    #[inline]
    fn columns(&self, i: usize) -> &[Column]
        requires { i < columns_in self.now.exercise }
        ensures value { items_of result.now ≡ menu_of self.now.exercise i }
        ensures few { length result.now ≤ 8192 }
    {
        &self.menus.menus[self.menus.places[i].menu].columns
    }

    /// Late rules of which column i settles no strict break.
    #[inline]
    fn idle(&self, i: usize) -> RuleSet
        requires { i < columns_in self.now.exercise }
        ensures { SettleNothing self.now.exercise i result.bits }
    {
        self.menus.places[i].idle
    }

    /// The menu of place i.
    fn menu(&self, i: usize) -> MenuView<'_>
        requires { i < columns_in self.now.exercise }
        ensures { IsViewOf self.now.exercise i result }
    {
        let place = &self.menus.places[i];
        MenuView {
            columns: self.columns(i),
            blocks: &self.menus.menus[place.menu].blocks,
            undead: &place.undead,
        }
    }

    /// The floor of a child, if it is live: then the child is written into the place that is given.
    /// What is told of the child isn't asked again.
    fn child_with(&self, node: &Node, k: usize, told: bool, child: &mut Node) -> Option<u64>
        requires child { HasChild (IsNodeOf self.now.exercise self.now.sheet node.now)
            (columns_in self.now.exercise) (width_at self.now.exercise) k }
        requires told { IsTrue told → IsTold self.now.exercise node.now k }
        ensures { IsMadeChild (IsNodeOf self.now.exercise self.now.sheet)
            (live_with false self.now.exercise self.now.sheet) k node.now child.new result }
    {
        let column = self.column(node.state.len(), k);
        child_by(
            &self.exercise,
            self.sheet,
            self.idle(node.state.len()),
            told,
            None,
            node,
            k,
            column,
            0,
            child,
        )
    }
}

impl<'a> MenuColumns for MixedSpace<'a> {
    ghost exercise = { λ space. space.exercise };

    fn voices(&self) -> u8 {
        self.exercise.voices
    }

    fn column(&self, i: usize, k: usize) -> &Column {
        &self.columns(i)[k]
    }
}

impl<'a> Space for MixedSpace<'a> {
    ghost use Rattle.species_space.specs.Grows.{with_grow};

    type Node = Node;

    ghost live = { λ space. live_with false space.exercise space.sheet };

    ghost width = { λ space. width_at space.exercise };

    ghost height = { λ space. columns_in space.exercise };

    ghost is_at = { λ space. IsNodeOf space.exercise space.sheet };

    ghost is_told = { λ space. IsTold space.exercise };

    ghost floors_grow = { λ space. with_grow false space.exercise space.sheet };

    fn depth(&self) -> usize {
        8 * self.exercise.bars as usize
    }

    fn root(&self) -> Option<(Node, u64)> {
        let state = State::start(&self.exercise);
        let least = least(&self.exercise, self.sheet, &state);
        let root = Node {
            state,
            paid: 0,
            least,
            hint: 0,
        };
        Some((root, least))
    }

    fn count(&self, node: &Node) -> usize {
        self.columns(node.state.len()).len()
    }

    fn child(&self, node: &Node, k: usize) -> Option<(Node, u64)> {
        let mut child = *node;
        let floor = self.child_with(node, k, false, &mut child)?;
        Some((child, floor))
    }

    fn child_into(&self, node: &Node, k: usize, child: &mut Node) -> Option<u64> {
        self.child_with(node, k, true, child)
    }

    fn remake(&self, node: &Node, k: usize, child: &mut Node) -> u64 {
        self.child_with(node, k, false, child).unwrap_or(0)
    }

    fn is_last(&self, node: &Node, _k: usize) -> bool {
        self.menu(node.state.len()).is_of_holds()
    }

    fn next_child(&self, node: &Node, from: usize, best: Option<u64>) -> usize {
        let menu = self.menu(node.state.len());
        let rests = NoTables {
            exercise: &self.exercise,
            sheet: self.sheet,
        };
        next_unpruned(&self.exercise, self.sheet, &rests, node, &menu, from, best)
    }
}

/// Its live paths are exactly the prefixes of its exercise in which no strict break is settled,
/// with children in reading order, and its leaves exactly the lawful settings, with their penalties
/// by its sheet as values.
impl<'a> QuestSpace for MixedSpace<'a> {
    ghost use Rattle.std.specs.Prelude.{List};
    ghost use Rattle.fux_grid.specs.declared.cell.Cell.{Cell};
    ghost use Rattle.species_space.specs.Paths.{prefix_at};
    ghost use Rattle.species_space.specs.Trees.{mixed_settings};

    ghost Step = { List Cell };

    ghost quest = { λ space. mixed_settings space.exercise space.sheet };

    ghost there = { λ space. prefix_at space.exercise };

    fn is_tree(&self) {
        let _ = self.voices();
    }
}
