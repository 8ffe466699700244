//! The setting of a number.

ghost use Rattle.std.specs.Prelude.{◌≡◌, ◌+◌, ◌++◌, IfOk, string_bytes, true};
ghost use Rattle.fux_grid.specs.Exercises.{HasCantus, IsValid};
ghost use Rattle.fux_text.specs.Lines.{setting_text};
ghost use Rattle.rule_law.specs.Prefixes.{IsSetting};
ghost use Rattle.species_space.specs.Paths.{is_alive_path, prefix_at};
ghost use Rattle.works.specs.Composed.{penalty_line};
ghost use Rattle.works.specs.Told.{ComposesNth};
ghost use Rattle.works.specs.Works.{Answers};

use crate::composing::best_text;
use crate::searching::space_of;
use crate::telling::{Telling, told};
use crate::work::{Output, Stop};
use command_words::Search;
use fux_grid::Exercise;
use fux_pitch::Memory;
use penalty_sheet::Sheet;
use species_space::{SpeciesSpace, score_of};
use std::alloc::Global;
use std::thread::Threads;

/// The setting of an exercise before which so many come, over a sheet of weights, how many there
/// are where these are fewer, or a bound.
pub fn compose_nth<R: Threads + Sync>(
    rt: &R,
    alloc: Global,
    exercise: &Exercise,
    sheet: &Sheet,
    before: u16,
    budget: u32,
) -> Result<Output, Stop>
    requires { IsValid exercise.now }
    ensures { Answers (ComposesNth before budget sheet.now exercise.now) result }
{
    let space = space_of(rt, alloc, exercise, sheet)?;
    let sought = Settings {
        exercise,
        space: &space,
    };
    let search = Search {
        budget,
        before: Some(before),
    };
    Ok(told(alloc, &sought, search)?)
}

/// The settings of an exercise.
#[derive(Drop)]
struct Settings<'a> {
    exercise: &'a Exercise<'a>,
    space: &'a SpeciesSpace<'a>,
}

impl<'a> Telling for Settings<'a> {
    ghost use Rattle.std.specs.Prelude.{◌≡◌};
    ghost use Rattle.fux_grid.specs.Exercises.{IsValid};
    ghost use Rattle.species_space.specs.Paths.{prefix_at};
    ghost use Rattle.works.specs.Told.{IsSettingText};

    type Tree = SpeciesSpace<'a>;

    ghost tree = { λ sought. sought.space.now };

    ghost IsReady = { λ sought. IsValid sought.exercise.now
        × (sought.space.now.exercise ≡ sought.exercise.now) };

    ghost IsWritten = { λ sought path. IsSettingText sought.exercise.now
        (prefix_at sought.space.now.exercise path) };

    fn space(&self) -> &SpeciesSpace<'a> {
        self.space
    }

    fn tell(&self, alloc: Global, path: &[u16], penalty: u64) -> Result<Vec<u8>, Memory> {
        Ok(nth_text(alloc, self.exercise, self.space, path, penalty)?.into_bytes())
    }
}

/// The exercise with the setting that a path leads to, and a penalty.
fn nth_text(
    alloc: Global,
    exercise: &Exercise,
    space: &SpeciesSpace<'_>,
    path: &[u16],
    penalty: u64,
) -> Result<String, Memory>
    requires valid { IsValid exercise.now }
    requires space { space.now.exercise ≡ exercise.now }
    requires alive { is_alive_path space.now.exercise path.now ≡ true }
    requires setting { IsSetting space.now.exercise (prefix_at space.now.exercise path.now) }
    ensures text { IfOk result (λ text. string_bytes text ≡ setting_text exercise.now
        (prefix_at space.now.exercise path.now) ++ penalty_line penalty) }
    ensures cantus { HasCantus exercise.now (prefix_at space.now.exercise path.now) }
{
    let score = score_of(alloc, space, path)?;
    best_text(alloc, exercise, &score, penalty)
}
