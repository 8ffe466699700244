//! The page of a class.

ghost use Rattle.std.specs.Prelude.{◌≡◌, ◌+◌, ◌<◌, ◌^◌, ◌&&◌, ◌++◌, ◌∷◌, [], IfOk, List, OnOk};
ghost use Rattle.std.specs.Fmt.{decimal};
ghost use Rattle.class_marker.specs.Escapes.{escaped};
ghost use Rattle.class_marker.specs.Pages as words;
ghost use Rattle.class_marker.specs.Pages.{IsPageSoFar, Named, count_cell, differs_cell, entry_rows, marks_cell, page_of, pre, row_of, section, sentence, shown_rows, symbols, table};

use crate::entry::{Entry, Shown};
use crate::escape::{put, put_escaped};
use fux_pitch::Memory;
use score_picture::SYMBOLS;
use std::alloc::Global;
use std::fmt::Write;

/// The head of the page. It has no script, and names no other file.
const HEAD: &str = "<!DOCTYPE html>\n\
    <html lang=\"en\">\n\
    <head>\n\
    <meta charset=\"utf-8\">\n\
    <meta name=\"viewport\" content=\"width=device-width\">\n\
    <title>class</title>\n\
    <style>\n\
    body { font-family: serif; max-width: 1060px; margin: 1em auto; padding: 0 1em }\n\
    table { border-collapse: collapse }\n\
    td, th { border: 1px solid #999; padding: 2px 8px; text-align: left }\n\
    td, h2 { overflow-wrap: anywhere }\n\
    th, td + td { white-space: nowrap }\n\
    pre { white-space: pre-wrap; overflow-wrap: anywhere }\n\
    svg { display: block; max-width: 100%; height: auto }\n\
    svg.symbols { position: absolute }\n\
    @media print { section { break-before: page } }\n\
    </style>\n\
    </head>\n\
    <body>\n";

/// The page of some names so far: the rows of its table, and what is said of their files.
#[derive(Drop)]
pub struct ClassPage {
    /// The rows of the table.
    pub rows: Vec<u8>,
    /// What is said of the files, one after the other.
    pub sections: Vec<u8>,
    /// How many names there are.
    pub count: usize,
    /// Whether nothing is wrong in any of their files.
    pub all_right: bool,
}

/// Appends a number.
fn put_number(alloc: Global, out: &mut Vec<u8>, number: usize) -> Result<(), Memory>
    ensures { OnOk result (out.new.items ≡ out.old.items ++ decimal number) }
{
    let mut text = String::new(alloc);
    write!(text, "{number}")?;
    put(out, text.as_str())
}

/// Appends how many marks there are, where they can be counted.
fn put_count(alloc: Global, out: &mut Vec<u8>, marks: Option<usize>) -> Result<(), Memory>
    ensures { OnOk result (out.new.items ≡ out.old.items ++ count_cell marks) }
{
    match marks {
        Some(count) => put_number(alloc, out, count),
        None => put(out, "not marked"),
    }
}

/// Appends how many marks there are, or why there are none to count.
fn put_marks(alloc: Global, out: &mut Vec<u8>, entry: &Entry) -> Result<(), Memory>
    ensures { OnOk result (out.new.items ≡ out.old.items ++ marks_cell entry.now) }
{
    match entry {
        Entry::Setting(shown) => put_count(alloc, out, shown.marks),
        Entry::Faulty(_) => put(out, "refused"),
        Entry::Bare => put(out, "no setting"),
        Entry::Unread => put(out, "cannot read"),
    }
}

/// Appends how much differs from the lesson.
fn put_differs(alloc: Global, out: &mut Vec<u8>, entry: &Entry) -> Result<(), Memory>
    ensures { OnOk result (out.new.items ≡ out.old.items ++ differs_cell entry.now) }
{
    match entry {
        Entry::Setting(shown) => put_number(alloc, out, shown.differs),
        Entry::Faulty(_) | Entry::Bare | Entry::Unread => put(out, ""),
    }
}

/// Whether there is no mark, and they can be counted.
fn is_unmarked(marks: Option<usize>) -> bool
    ensures { result ≡ words.is_unmarked marks }
{
    match marks {
        Some(count) => count == 0,
        None => false,
    }
}

/// Whether nothing is wrong in a file.
fn is_right(entry: &Entry) -> bool
    ensures { result ≡ words.is_right entry.now }
{
    match entry {
        Entry::Setting(shown) => is_unmarked(shown.marks) && shown.differs == 0,
        Entry::Faulty(_) | Entry::Bare | Entry::Unread => false,
    }
}

/// Whether nothing is wrong in some files and in one file more.
fn still_right(all_right: bool, entry: &Entry) -> bool
    ensures { result ≡ (all_right && words.is_right entry.now) }
{
    all_right && is_right(entry)
}

/// Appends the row of a name.
#[tactic(auto, unfolding(crate::specs::Pages::row_of))]
fn put_row(
    alloc: Global,
    out: &mut Vec<u8>,
    number: usize,
    name: &str,
    entry: &Entry,
) -> Result<(), Memory>
    ensures { OnOk result (out.new.items ≡ out.old.items
        ++ row_of number (name.now, entry.now)) }
{
    put(out, "<tr><td><a href=\"#a")?;
    put_number(alloc, out, number)?;
    put(out, "\">")?;
    put_escaped(out, name.as_bytes())?;
    put(out, "</a></td><td>")?;
    put_marks(alloc, out, entry)?;
    put(out, "</td><td>")?;
    put_differs(alloc, out, entry)?;
    put(out, "</td></tr>\n")?;
    Ok(())
}

/// Appends a text as it stands, where there is any.
#[tactic(auto, unfolding(crate::specs::Pages::pre))]
fn put_pre(out: &mut Vec<u8>, text: &[u8]) -> Result<(), Memory>
    ensures { OnOk result (out.new.items ≡ out.old.items ++ pre text.now) }
{
    if text.is_empty() {
        return Ok(());
    }
    put(out, "<pre>")?;
    put_escaped(out, text)?;
    put(out, "</pre>\n")?;
    Ok(())
}

/// Appends a sentence.
#[tactic(auto, unfolding(crate::specs::Pages::sentence))]
fn put_sentence(out: &mut Vec<u8>, text: &str) -> Result<(), Memory>
    ensures { OnOk result (out.new.items ≡ out.old.items ++ sentence text.now) }
{
    put(out, "<p>")?;
    put(out, text)?;
    put(out, "</p>\n")?;
    Ok(())
}

/// Appends what differs, the picture and the marks of a setting.
fn put_shown(out: &mut Vec<u8>, shown: &Shown) -> Result<(), Memory>
    ensures { OnOk result (out.new.items ≡ out.old.items ++ shown_rows shown.now) }
{
    put_pre(out, shown.differences.as_bytes())?;
    put(out, shown.picture.as_str())?;
    put_pre(out, shown.explained.as_bytes())?;
    Ok(())
}

/// Appends what is said of a file.
fn put_said(out: &mut Vec<u8>, entry: &Entry) -> Result<(), Memory>
    ensures { OnOk result (out.new.items ≡ out.old.items ++ entry_rows entry.now) }
{
    match entry {
        Entry::Setting(shown) => put_shown(out, shown),
        Entry::Faulty(told) => put_pre(out, told),
        Entry::Bare => put_sentence(out, "no setting"),
        Entry::Unread => put_sentence(out, "cannot read"),
    }
}

/// Appends the part of a name.
#[tactic(auto, unfolding(crate::specs::Pages::section))]
fn put_section(
    alloc: Global,
    out: &mut Vec<u8>,
    number: usize,
    name: &str,
    entry: &Entry,
) -> Result<(), Memory>
    ensures { OnOk result (out.new.items ≡ out.old.items
        ++ section number (name.now, entry.now)) }
{
    put(out, "<section id=\"a")?;
    put_number(alloc, out, number)?;
    put(out, "\">\n<h2>")?;
    put_escaped(out, name.as_bytes())?;
    put(out, "</h2>\n")?;
    put_said(out, entry)?;
    put(out, "</section>\n")?;
    Ok(())
}

impl ClassPage {
    /// The page of no name.
    pub fn new(alloc: Global) -> ClassPage
        ensures { IsPageSoFar [] result }
    {
        ClassPage {
            rows: Vec::new(alloc),
            sections: Vec::new(alloc),
            count: 0,
            all_right: true,
        }
    }
}

/// Puts a name with what the page has of its file behind the others.
pub fn put_entry(
    alloc: Global,
    page: &mut ClassPage,
    name: &str,
    entry: &Entry,
) -> Result<(), Memory>
    requires { page.now.count < 9223372036854775807 }
    ensures { (class : List Named) → IsPageSoFar class page.old
        → OnOk result (IsPageSoFar (class ++ (name.now, entry.now) ∷ []) page.new) }
{
    let number = page.count + 1;
    put_row(alloc, &mut page.rows, number, name, entry)?;
    put_section(alloc, &mut page.sections, number, name, entry)?;
    page.count = number;
    page.all_right = still_right(page.all_right, entry);
    Ok(())
}

/// Appends the symbols of all pictures.
#[tactic(auto, unfolding(crate::specs::Pages::symbols))]
fn put_symbols(out: &mut Vec<u8>) -> Result<(), Memory>
    ensures { OnOk result (out.new.items ≡ out.old.items ++ symbols) }
{
    put(out, "<svg width=\"0\" height=\"0\" class=\"symbols\">\n")?;
    put(out, SYMBOLS)?;
    put(out, "</svg>\n")?;
    Ok(())
}

/// Appends the table with these rows.
#[tactic(auto, unfolding(crate::specs::Pages::table))]
fn put_table(out: &mut Vec<u8>, rows: &[u8]) -> Result<(), Memory>
    ensures { OnOk result (out.new.items ≡ out.old.items ++ table rows.now) }
{
    put(
        out,
        "<table>\n<tr><th>name</th><th>marks</th><th>differs</th></tr>\n",
    )?;
    out.extend_from_slice(rows)?;
    put(out, "</table>\n")?;
    Ok(())
}

/// The whole page.
#[tactic(auto, unfolding(crate::specs::Pages::page_of))]
pub fn whole_page(alloc: Global, page: &ClassPage) -> Result<Vec<u8>, Memory>
    ensures { (class : List Named) → IsPageSoFar class page.now
        → IfOk result (λ out. out.items ≡ page_of class) }
{
    let mut out = Vec::new(alloc);
    put(&mut out, HEAD)?;
    put_symbols(&mut out)?;
    put_table(&mut out, &page.rows)?;
    out.extend_from_slice(&page.sections)?;
    put(&mut out, "</body>\n</html>\n")?;
    Ok(out)
}
