//! The tables, and which function answers the cases of each.

use crate::agree::agree;
use crate::{given, menus, notes, pitches};
use std::alloc::Global;
use std::process::Abort;

/// What a table asks.
#[derive(Clone, Copy)]
enum Asked {
    Key,
    Spelling,
    Name,
    Twice,
    Reduced,
    Class,
    Between,
    Final,
    Gamut,
    Note,
    Shape,
    Push,
    Order,
    Menu,
    Width,
    Start,
    Range,
    GivenMenu,
    GivenBar,
    Mixed,
}

const TABLES: [(Asked, &str); 20] = [
    (Asked::Key, pitches::KEYS),
    (Asked::Spelling, pitches::SPELLINGS),
    (Asked::Name, pitches::NAMES),
    (Asked::Twice, "C4 =   C4 and C4"),
    (Asked::Reduced, pitches::REDUCED),
    (Asked::Class, pitches::CLASSES),
    (Asked::Between, pitches::BETWEEN),
    (Asked::Final, pitches::FINALS),
    (Asked::Gamut, pitches::GAMUTS),
    (Asked::Note, notes::NOTES),
    (Asked::Shape, notes::SHAPES),
    (Asked::Push, notes::PUSHES),
    (Asked::Order, notes::ASCENDING),
    (Asked::Menu, menus::MENUS),
    (Asked::Width, menus::WIDTHS),
    (Asked::Start, menus::STARTS),
    (Asked::Range, menus::BARS),
    (Asked::GivenMenu, menus::GIVEN_MENUS),
    (Asked::GivenBar, menus::GIVEN_BARS),
    (Asked::Mixed, given::MIXED),
];

/// What is answered of a case that can be read.
fn answer(alloc: Global, asked: Asked, case: &str) -> Option<String> {
    match asked {
        Asked::Key => pitches::key_of(alloc, case),
        Asked::Spelling => pitches::spelling_of(alloc, case),
        Asked::Name => pitches::named(alloc, case),
        Asked::Twice => pitches::twice(alloc, case),
        Asked::Reduced => pitches::reduced(alloc, case),
        Asked::Class => pitches::classes_of(alloc, case),
        Asked::Between => pitches::between(alloc, case),
        Asked::Final => pitches::final_of(alloc, case),
        Asked::Gamut => pitches::gamut_of(alloc, case),
        Asked::Note => notes::notes_at(alloc, case),
        Asked::Shape => notes::shape_of(alloc, case),
        Asked::Push => notes::pushed(alloc, case),
        Asked::Order => notes::orders(alloc, case),
        Asked::Menu => menus::menu_at(alloc, case),
        Asked::Width => menus::width_of(alloc, case),
        Asked::Start => menus::starts(alloc, case),
        Asked::Range => menus::range_in(alloc, case),
        Asked::GivenMenu => menus::given_menu(alloc, case),
        Asked::GivenBar => menus::given_line(alloc, case),
        Asked::Mixed => given::mixed_of(alloc, case),
    }
}

/// Goes through a table, each line of which has a case and its answer, with ` = ` between them, and
/// ends the test at the first case that is answered otherwise.
fn compare(rt: &impl Abort, alloc: Global, asked: Asked, table: &str) {
    for line in table.lines() {
        match line.split_once(" = ") {
            Some((case, wanted)) => {
                agree(rt, line, answer(alloc, asked, case).as_deref(), wanted)
            }
            None => agree(rt, line, None, "an answer"),
        }
    }
}

#[test]
fn worked_values_stand(rt: HostRuntime) {
    for (asked, table) in TABLES {
        compare(&rt, rt.alloc(), asked, table);
    }
}
