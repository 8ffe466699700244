//! What `mark` says of an exercise, and what `explain` tells of each mark, in words; the report of
//! a class of exercises, marked side by side; what an answer has otherwise than its lesson, and its
//! marks by the lesson; the report in which each name has its place, also where its file can't be
//! read; and the page of a class, on which what `mark`, `markpicture` and `explain` say of each of
//! its files is one HTML page.
#![tactic(auto)]

mod alone;
mod answer;
mod answer_law;
mod asking;
mod class;
mod columns;
mod comparing;
mod difference;
mod difference_lines;
mod entry;
mod escape;
mod evidence;
mod explaining;
mod explanation;
mod far;
mod given;
mod intervals;
mod joined;
mod lines;
mod list;
mod listing;
mod loose_list;
mod marking;
mod notes;
mod one;
mod page;
mod relaxed;
mod said;
mod sentences;
mod sounding;
mod telling;
mod unmarked;
mod voices;
mod whole_report;
mod words;

pub use answer::{AnswerLines, answer_lines, is_markable};
pub use answer_law::none_differ;
pub use asking::asked;
pub use class::{ClassReport, report};
pub use difference::Difference;
pub use difference_lines::put_differences;
pub use entry::{Entry, Shown};
pub use explaining::explained;
pub use explanation::{Explanation, explain, explain_cantus, explain_mixed};
pub use joined::say_joined;
pub use list::{ListFault, listed_text, lists_are_read, read_list};
pub use listing::differences;
pub use loose_list::read_loose_list;
pub use marking::{MarkLines, lines_of, mark};
pub use one::{Marking, Text, mark_text};
pub use page::{ClassPage, put_entry, whole_page};
pub use said::{Said, say};
pub use telling::{entry_of, shown_marks};
pub use unmarked::{Unmarked, put_unmarked};
pub use whole_report::{WholeReport, put_said, whole};
