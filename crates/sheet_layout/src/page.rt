//! Where bars stand on the page.

ghost use Rattle.std.specs.Prelude.{◌≡◌, ◌+◌, ◌^◌, ◌<◌, ◌≤◌, IfOk};
ghost use Rattle.sheet_layout.specs.Pages.{bar_places as places_of, bar_room as room_of_bar, least_width, next_place};

use crate::spacing::{all_notes, bar_width, slot_x};
use fux_grid::{Cell, Exercise};
use fux_pitch::{List, Memory};
use std::alloc::Global;

/// Where a system's first bar begins.
pub const LEFT: u32 = 128;
/// How far bars reach.
pub const RIGHT: u32 = 1030;

/// What a bar needs: its width, and where its first slot stands.
#[derive(Clone, Copy, Debug, PartialEq, Eq)]
pub struct BarRoom {
    pub width: u16,
    pub first: u16,
}

/// Where a bar stands: the height where its system begins, where the bar begins, and its room.
#[derive(Clone, Copy, Debug, PartialEq, Eq)]
pub struct BarPlace {
    pub top: u64,
    pub left: u32,
    pub room: BarRoom,
}

/// How wide a bar is at least: on a sheet to fill in there is room to write.
fn least_width(ex: &Exercise) -> u16
    ensures value { result ≡ least_width ex.now }
    ensures most { result ≤ 150 }
{
    if ex.setting.is_some() { 0 } else { 150 }
}

/// What a bar needs.
fn bar_room(alloc: Global, ex: &Exercise, lines: &[List<Cell>], bar: u8) -> Result<BarRoom, Memory>
    requires { bar < ex.now.bars }
    ensures value { IfOk result (λ room. room ≡ room_of_bar ex.now lines.now bar) }
    ensures most { IfOk result (λ room. room.width ≤ 282) }
{
    let all = all_notes(alloc, ex, lines, bar)?;
    Ok(BarRoom {
        width: bar_width(&all).max(least_width(ex)),
        first: slot_x(&all, 0),
    })
}

/// The place of a bar behind another one, where it fits the page, else in the next system; a system
/// is so tall, and 20 lie between two.
fn next_place(tall: u32, before: BarPlace, room: BarRoom) -> BarPlace
    requires reach { before.left + before.room.width ≤ 1030 }
    requires top { before.top ≤ 2 ^ 48 }
    requires width { room.width ≤ 282 }
    ensures value { result ≡ next_place tall before room }
    ensures reach { result.left + result.room.width ≤ 1030 }
    ensures top { result.top ≤ before.top + tall + 20 }
{
    let left = before.left + u32::from(before.room.width);
    if left + u32::from(room.width) <= RIGHT {
        BarPlace {
            top: before.top,
            left,
            room,
        }
    } else {
        BarPlace {
            top: before.top + u64::from(tall) + 20,
            left: LEFT,
            room,
        }
    }
}

/// The places of all bars, where a system is so tall: it has as many as fit the page.
pub fn bar_places(
    alloc: Global,
    ex: &Exercise,
    lines: &[List<Cell>],
    tall: u32,
) -> Result<Vec<BarPlace>, Memory>
    ensures { IfOk result (λ places. places.items ≡ places_of ex.now lines.now tall) }
{
    let mut places = Vec::new(alloc);
    let mut place = BarPlace {
        top: 60,
        left: LEFT,
        room: BarRoom { width: 0, first: 0 },
    };
    for bar in 0..ex.bars {
        let room = bar_room(alloc, ex, lines, bar)?;
        place = next_place(tall, place, room);
        places.push(place)?;
    }
    Ok(places)
}
