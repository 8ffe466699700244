//! The page of a class.

ghost use Rattle.std.specs.Prelude.{◌≡◌, ◌+◌, ◌*◌, ◌≤◌, IfOk, List, length, map, string_bytes};
ghost use Rattle.std.specs.Option.{ForSome, option_copied};
ghost use Rattle.class_marker.specs.Pages.{IsPageSoFar, Named};
ghost use Rattle.fux_grid.specs.Exercises.{IsValid};
ghost use Rattle.fux_port.specs.Counts.{Rose};
ghost use Rattle.works.specs.ClassPages as words;
ghost use Rattle.works.specs.ClassPages.{ArePaged, IsClassPage, page_output, page_verdict};

use crate::exercise::LONGEST_TEXT;
use crate::gathering::content_or_none;
use crate::work::{Output, Verdict};
use class_marker::{ClassPage, entry_of, put_entry, whole_page};
use fux_grid::Exercise;
use fux_pitch::Memory;
use fux_port::Shelf;
use std::alloc::Global;

/// The page so far of the files of these names, one after the other.
fn paged_names<F: Shelf>(
    alloc: Global,
    lesson: Option<&Exercise>,
    names: &[String],
    shelf: &mut F,
) -> Result<ClassPage, Memory>
    requires { ForSome lesson (λ exercise. IsValid exercise.now) }
    ensures paged { IfOk result (ArePaged (F.files shelf.old)
        (Rose (F.faults shelf.old) (F.faults shelf.new)) (option_copied lesson.entry)
        (map string_bytes names.now)) }
    ensures little { F.given shelf.new ≤ F.given shelf.old + 65537 * length names.now }
    ensures files { F.files shelf.new ≡ F.files shelf.old }
    ensures faults { F.faults shelf.old ≤ F.faults shelf.new }
{
    let mut page = ClassPage::new(alloc);
    for place in 0..names.len() {
        let name = names[place].as_str();
        let found = content_or_none(alloc, shelf, name, LONGEST_TEXT)?;
        let entry = entry_of(alloc, lesson, name, &found)?;
        put_entry(alloc, &mut page, name, &entry)?;
    }
    Ok(page)
}

/// Whether nothing is wrong in any file.
fn verdict_of(all_right: bool) -> Verdict
    ensures { result ≡ page_verdict all_right }
{
    if all_right {
        Verdict::Favorable
    } else {
        Verdict::Unfavorable
    }
}

/// The output of a page.
fn output_of(alloc: Global, page: &ClassPage) -> Result<Output, Memory>
    ensures { (class : List Named) → IsPageSoFar class page.now
        → IfOk result (λ output. output ≡ page_output class) }
{
    let bytes = whole_page(alloc, page)?;
    Ok(Output::of_bytes(verdict_of(page.all_right), bytes))
}

/// The page of the files of these names, by a lesson where there is one.
pub(crate) fn page_names<F: Shelf>(
    alloc: Global,
    lesson: Option<&Exercise>,
    names: &[String],
    shelf: &mut F,
) -> Result<Output, Memory>
    requires { ForSome lesson (λ exercise. IsValid exercise.now) }
    ensures paged { IfOk result (IsClassPage (F.files shelf.old)
        (Rose (F.faults shelf.old) (F.faults shelf.new)) (option_copied lesson.entry)
        (map string_bytes names.now)) }
    ensures little { F.given shelf.new ≤ F.given shelf.old + 65537 * length names.now }
    ensures files { F.files shelf.new ≡ F.files shelf.old }
    ensures faults { F.faults shelf.old ≤ F.faults shelf.new }
{
    let page = paged_names(alloc, lesson, names, shelf)?;
    output_of(alloc, &page)
}
