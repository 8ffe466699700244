//! What each command makes of its files, and what is said where it makes nothing; and laws of what is
//! made: what one command tells of what another wrote, and what canons and a new cantus pay by the book.
#![tactic(auto)]

mod answering;
mod canon_laws;
mod cantus_certifying;
mod cantus_checking;
mod certifying;
mod charging;
mod checking;
mod classing;
mod complaint;
mod composing;
mod content;
mod drilling;
mod exercise;
mod explaining;
mod gathering;
mod imitating;
mod inventing;
mod joining;
mod law;
mod making;
mod marking;
mod mixing;
mod numbering;
mod paging;
mod playing;
mod refusal;
mod rendering;
mod searching;
mod telling;
mod weighing;
mod work;

pub use canon_laws::{canons_keep_the_book, canons_pay_by_the_book, cantus_pays_by_the_book};
pub use cantus_certifying::perform_cantus;
pub use certifying::perform_certify;
pub use complaint::{Complaint, FileName};
pub use gathering::{whole_class, whole_files};
pub use law::{best_is_composed, certified_is_accepted, mixed_best_is_mixed, written_is_read};
pub use making::make;
pub use refusal::Refusal;
pub use work::{Output, Verdict};
