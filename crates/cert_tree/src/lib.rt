//! Certificates over a tree of any kind: claims of its nodes in preorder, what true claims show of
//! which none is owed and none is over, and how claims are judged one after the other.
#![tactic(auto)]

mod claim_tree;
mod judging;
mod law;
mod walk;
mod writing;

pub use claim_tree::ClaimTree;
pub use judging::{Cause, Judging, Refusal, begin, feed, finish};
pub use law::{shown_by, written};
pub use walk::{Level, Walk, go_on};
pub use writing::{begin_again, next_claim, room_for_walk};
