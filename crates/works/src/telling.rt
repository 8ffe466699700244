//! What is written of what is sought in a space, whatever that is: of the best, or of the one of a
//! number, in order of penalty and then of reading.

ghost use Rattle.std.specs.Prelude.{◌≡◌, ℕ, List, IfOk, None, Some, string_bytes};
ghost use Rattle.tree_search.specs.Answer.{IsLeaf};
ghost use Rattle.works.specs.Told.{TellsPath, TellsSought, count_line, only_line};

use crate::composing::{bound_text, none_text};
use crate::work::{Output, Verdict};
use command_words::Search;
use fux_pitch::Memory;
use std::alloc::Global;
use std::fmt::Write;
use tree_search::{Numbered, Outcome, QuestSpace, search_nth_quest, search_quest};

/// What is sought, and what is written of one that is found.
pub trait Telling {
    /// The space that it is sought in.
    type Tree: QuestSpace;

    /// The space that it is sought in.
    ghost tree: { Self → Self.Tree };

    /// What is asked of it holds, so that one may be told.
    ghost IsReady: { Self → Type 0 };

    /// Bytes are what is written of the one that a path leads to, and of its penalty.
    ghost IsWritten: { Self → List ℕ → ℕ → List ℕ → Type 0 };

    /// The space that it is sought in.
    fn space(&self) -> &Self::Tree
        ensures { result.now ≡ tree self.now };

    /// What is written of the one that a path leads to, and of its penalty.
    fn tell(&self, alloc: Global, path: &[u16], penalty: u64) -> Result<Vec<u8>, Memory>
        requires ready { IsReady self.now }
        requires leaf { IsLeaf (Self.Tree.live (tree self.now)) (Self.Tree.height (tree self.now))
            path.now penalty }
        requires lawful { (Self.Tree.quest (tree self.now)).IsLawful (Self.Tree.there
            (tree self.now) path.now) }
        ensures { IfOk result (λ bytes. IsWritten self.now path.now penalty bytes.items) };
}

/// What is written of the best, or of the one before which so many come, as is asked; of how many
/// there are where these are fewer; or of a bound.
pub fn told<T: Telling>(alloc: Global, sought: &T, search: Search) -> Result<Output, Memory>
    requires { T.IsReady sought.now }
    ensures { IfOk result (λ output. TellsSought (T.Tree.quest (T.tree sought.now)) search.before
        search.budget (TellsPath (T.Tree.there (T.tree sought.now)) (T.IsWritten sought.now))
        output.verdict output.bytes) }
{
    match search.before {
        None => best_told(alloc, sought, search.budget),
        Some(before) => nth_told(alloc, sought, before, search.budget),
    }
}

/// What is written of the best, that there is none, or of a bound.
fn best_told<T: Telling>(alloc: Global, sought: &T, budget: u32) -> Result<Output, Memory>
    requires { T.IsReady sought.now }
    ensures { IfOk result (λ output. TellsSought (T.Tree.quest (T.tree sought.now)) None budget
        (TellsPath (T.Tree.there (T.tree sought.now)) (T.IsWritten sought.now)) output.verdict
        output.bytes) }
{
    match search_quest(alloc, sought.space(), budget)? {
        Outcome::Found { path, value } => Ok(Output::of_bytes(
            Verdict::Favorable,
            sought.tell(alloc, path.as_slice(), value)?,
        )),
        Outcome::Nothing => Ok(Output::of_text(Verdict::Unfavorable, none_text(alloc)?)),
        Outcome::Spent { bound } => Ok(Output::of_text(Verdict::Spent, bound_text(alloc, bound)?)),
    }
}

/// What is written of the one before which so many come, of how many there are, or of a bound.
fn nth_told<T: Telling>(
    alloc: Global,
    sought: &T,
    before: u16,
    budget: u32,
) -> Result<Output, Memory>
    requires { T.IsReady sought.now }
    ensures { IfOk result (λ output. TellsSought (T.Tree.quest (T.tree sought.now)) (Some before)
        budget (TellsPath (T.Tree.there (T.tree sought.now)) (T.IsWritten sought.now))
        output.verdict output.bytes) }
{
    match search_nth_quest(alloc, sought.space(), before as u32 + 1, budget)? {
        Numbered::Found { path, value } => Ok(Output::of_bytes(
            Verdict::Favorable,
            sought.tell(alloc, path.as_slice(), value)?,
        )),
        Numbered::Only { count } => Ok(Output::of_text(
            Verdict::Unfavorable,
            only_text(alloc, count)?,
        )),
        Numbered::Spent { bound } => Ok(Output::of_text(Verdict::Spent, bound_text(alloc, bound)?)),
    }
}

/// How many there are, or that there is none.
fn only_text(alloc: Global, count: u32) -> Result<String, Memory>
    ensures { IfOk result (λ text. string_bytes text ≡ only_line count) }
{
    if count == 0 {
        none_text(alloc)
    } else {
        count_text(alloc, count)
    }
}

/// How many there are.
fn count_text(alloc: Global, count: u32) -> Result<String, Memory>
    ensures { IfOk result (λ text. string_bytes text ≡ count_line count) }
{
    let mut text = String::new(alloc);
    write!(text, "only {count}\n")?;
    Ok(text)
}
