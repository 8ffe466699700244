//! The file of a certificate, read in pieces: its first bytes, what it states behind its head, its
//! claims, how they are judged one by one, and the line that tells what the file is found to be;
//! and written: behind a text, of each node that is owed the claim that is the node's own, or any
//! lines that come one after the other. It knows nothing of what a certificate is about.
#![tactic(auto)]

mod checks;
mod fault;
mod filling;
mod judging;
mod kept;
mod next;
mod pieces;
mod reader;
mod refusals;
mod source;
mod stated_reader;
mod text;
mod verdict;
mod whole;
mod write;

pub use checks::Checks;
pub use fault::ReadFault;
pub use filling::{fill, read_piece};
pub use judging::judge;
pub use kept::{KeptLines, write_kept};
pub use pieces::{LONGEST_PIECE, Pieces};
pub use reader::Reader;
pub use refusals::refused_by;
pub use source::{LineSource, line_from};
pub use stated_reader::StatedReader;
pub use text::verdict_text;
pub use verdict::Verdict;
pub use whole::write_with_claims;
pub use write::{is_within, write_parts};
