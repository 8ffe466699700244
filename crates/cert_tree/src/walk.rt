//! Where a judge of claims stands among the nodes that are owed.

ghost use Rattle.std.specs.Prelude.{◌≡◌, ◌≤◌, ◌↔◌, ◌<◌, ◌++◌, ◌∷◌, [], List, true, None, IfSome, IsTrue, length, reverse, vec_capacity};
ghost use Rattle.std.specs.Bool.{OnFalse, OnTrue};
ghost use Rattle.cert_tree.specs.declared.walk.Level.{Level as ALevel};
ghost use Rattle.cert_tree.specs.Walks.{AreLevels, CanGoOn, IsFound, IsOpen, IsWalk, OwesNext, levels_of, node_at, owed_after, owed_by_walk, owed_from, owed_later, steps_of};

use crate::claim_tree::ClaimTree;

/// An open node, and the number of the step by which it goes on to the node that is owed next.
#[derive(Clone, Copy)]
pub struct Level<K: Copy> {
    pub parent: K,
    pub number: usize,
}

/// The open nodes that begin the one owed next, the shortest first: the last one's step leads to
/// that. Where there is none, the root is owed next, if anything is known of it, and else nothing
/// is owed.
#[derive(Drop)]
pub struct Walk<K: Copy> {
    pub levels: Vec<Level<K>>,
    pub root: Option<K>,
}

/// Goes to the first node that is longer than an open one by a step of this number or a later one,
/// where there is one.
fn enter<T: ClaimTree>(it: &T, walk: &mut Walk<T::Known>, parent: &T::Known, from: usize) -> bool
    requires levels { AreLevels (T.tree it.now) (T.is_of it.now) (T.ways it.now)
        (levels_of walk.old) }
    requires root { IfSome walk.old.root (λ known. T.is_of it.now known (T.ways it.now).root) }
    requires room { vec_capacity walk.old.levels ≡ (T.ways it.now).height }
    requires parent { IsOpen (T.tree it.now) (T.is_of it.now)
        (node_at (T.ways it.now) (levels_of walk.old)) parent.now }
    requires from { from ≤ 8192 }
    ensures walk { OnTrue result (IsWalk (T.tree it.now) (T.is_of it.now) (T.ways it.now)
        walk.new) }
    ensures owed { OnTrue result (owed_by_walk (T.ways it.now) walk.new ≡ owed_from (T.ways it.now)
        (levels_of walk.old) from) }
    ensures none { OnFalse result ((T.ways it.now).longer_from (node_at (T.ways it.now) (levels_of walk.old))
        from ≡ []) }
    ensures same { OnFalse result (walk.new ≡ walk.old) }
{
    let Some(number) = it.next(parent, from) else {
        return false;
    };
    walk.levels.push_reserved(Level {
        parent: *parent,
        number,
    });
    true
}

/// Goes on by another step from the newest of the levels. What is known of its node stays where it
/// stands.
fn renumber<K: Copy>(levels: &mut Vec<Level<K>>, number: usize)
    requires some { 0 < length levels.old.items }
    ensures items { (older : List (ALevel K)) (level : ALevel K) → levels.old.items ≡ older ++ level
        ∷ [] → levels.new.items ≡ older ++ record level { number = number } ∷ [] }
    ensures room { vec_capacity levels.new ≡ vec_capacity levels.old }
{
    let top = levels.len() - 1;
    levels[top].number = number;
}

/// Goes to the next node that is owed behind those of the levels.
fn go_up<T: ClaimTree>(it: &T, walk: &mut Walk<T::Known>)
    requires levels { AreLevels (T.tree it.now) (T.is_of it.now) (T.ways it.now)
        (levels_of walk.old) }
    requires root { IfSome walk.old.root (λ known. T.is_of it.now known (T.ways it.now).root) }
    requires room { vec_capacity walk.old.levels ≡ (T.ways it.now).height }
    ensures walk { IsWalk (T.tree it.now) (T.is_of it.now) (T.ways it.now) walk.new }
    ensures owed { owed_by_walk (T.ways it.now) walk.new ≡ owed_later (T.ways it.now)
        (levels_of walk.old) }
{
    let count = walk.levels.len();
    if count == 0 {
        walk.root = None;
        return;
    }
    let level = &walk.levels[count - 1];
    match it.next(&level.parent, level.number + 1) {
        Some(number) => renumber(&mut walk.levels, number),
        None => {
            walk.levels.truncate(count - 1);
            go_up(it, walk);
        }
    }
}

/// What is known of the node that is owed next, where there is one.
fn known_next<T: ClaimTree>(it: &T, walk: &Walk<T::Known>) -> Option<T::Known>
    requires walk { IsWalk (T.tree it.now) (T.is_of it.now) (T.ways it.now) walk.now }
    ensures known { IfSome result (λ known. T.is_of it.now known
        (node_at (T.ways it.now) (levels_of walk.now))) }
    ensures none { result ≡ None → owed_by_walk (T.ways it.now) walk.now ≡ [] }
{
    let count = walk.levels.len();
    if count == 0 {
        return walk.root;
    }
    let level = &walk.levels[count - 1];
    Some(it.behind(&level.parent, level.number))
}

/// Whether a claim is true of the node to which the newest of the levels leads. What is known of it
/// is kept, where it is found on the way.
fn judge_newest<T: ClaimTree>(
    it: &T,
    levels: &mut Vec<Level<T::Known>>,
    claim: T::Claim,
    found: &mut Option<T::Known>,
) -> bool
    requires some { 0 < length levels.old.items }
    requires levels { AreLevels (T.tree it.now) (T.is_of it.now) (T.ways it.now)
        (reverse levels.old.items) }
    requires none { found.old ≡ None }
    ensures told { IsTrue result
        ↔ (T.tree it.now).IsTrueOf (node_at (T.ways it.now) (reverse levels.old.items)) claim }
    ensures found { IsFound (T.is_of it.now) (node_at (T.ways it.now) (reverse levels.old.items))
        found.new }
    ensures levels { AreLevels (T.tree it.now) (T.is_of it.now) (T.ways it.now)
        (reverse levels.new.items) }
    ensures steps { steps_of (reverse levels.new.items) ≡ steps_of (reverse levels.old.items) }
    ensures room { vec_capacity levels.new ≡ vec_capacity levels.old }
{
    let top = levels.len() - 1;
    let level = &mut levels[top];
    it.judge_behind(&mut level.parent, level.number, claim, found)
}

/// Whether a claim is true of the node that is owed next, where there is one. What is known of it
/// is kept, where it is found on the way.
pub(crate) fn is_next_true<T: ClaimTree>(
    it: &T,
    walk: &mut Walk<T::Known>,
    claim: T::Claim,
    found: &mut Option<T::Known>,
) -> Option<bool>
    requires walk { IsWalk (T.tree it.now) (T.is_of it.now) (T.ways it.now) walk.old }
    requires none { found.old ≡ None }
    ensures told { IfSome result (λ told. IsTrue told
        ↔ (T.tree it.now).IsTrueOf (node_at (T.ways it.now) (levels_of walk.new)) claim) }
    ensures found { IsFound (T.is_of it.now) (node_at (T.ways it.now) (levels_of walk.new))
        found.new }
    ensures owes { IfSome result (λ _. OwesNext (T.ways it.now) walk.new) }
    ensures none { result ≡ None → owed_by_walk (T.ways it.now) walk.new ≡ [] }
    ensures walk { IsWalk (T.tree it.now) (T.is_of it.now) (T.ways it.now) walk.new }
    ensures owed { owed_by_walk (T.ways it.now) walk.new ≡ owed_by_walk (T.ways it.now) walk.old }
{
    if walk.levels.len() == 0 {
        return match &walk.root {
            Some(known) => Some(it.is_true(known, claim)),
            None => None,
        };
    }
    Some(judge_newest(it, &mut walk.levels, claim, found))
}

/// The claim that is written of the node to which the newest of the levels leads. What is known of
/// it is kept, where it is found on the way.
fn tell_newest<T: ClaimTree>(
    it: &T,
    levels: &mut Vec<Level<T::Known>>,
    found: &mut Option<T::Known>,
) -> T::Claim
    requires some { 0 < length levels.old.items }
    requires levels { AreLevels (T.tree it.now) (T.is_of it.now) (T.ways it.now)
        (reverse levels.old.items) }
    requires none { found.old ≡ None }
    ensures own { result ≡ T.own it.now (node_at (T.ways it.now) (reverse levels.old.items)) }
    ensures found { IsFound (T.is_of it.now) (node_at (T.ways it.now) (reverse levels.old.items))
        found.new }
    ensures levels { AreLevels (T.tree it.now) (T.is_of it.now) (T.ways it.now)
        (reverse levels.new.items) }
    ensures steps { steps_of (reverse levels.new.items) ≡ steps_of (reverse levels.old.items) }
    ensures room { vec_capacity levels.new ≡ vec_capacity levels.old }
{
    let top = levels.len() - 1;
    let level = &mut levels[top];
    it.tell_behind(&mut level.parent, level.number, found)
}

/// The claim that is written of the node that is owed next, where there is one. What is known of it
/// is kept, where it is found on the way.
pub(crate) fn own_next<T: ClaimTree>(
    it: &T,
    walk: &mut Walk<T::Known>,
    found: &mut Option<T::Known>,
) -> Option<T::Claim>
    requires walk { IsWalk (T.tree it.now) (T.is_of it.now) (T.ways it.now) walk.old }
    requires none { found.old ≡ None }
    ensures own { IfSome result (λ claim. claim
        ≡ T.own it.now (node_at (T.ways it.now) (levels_of walk.new))) }
    ensures found { IsFound (T.is_of it.now) (node_at (T.ways it.now) (levels_of walk.new))
        found.new }
    ensures owes { IfSome result (λ _. OwesNext (T.ways it.now) walk.new) }
    ensures none { result ≡ None → owed_by_walk (T.ways it.now) walk.new ≡ [] }
    ensures walk { IsWalk (T.tree it.now) (T.is_of it.now) (T.ways it.now) walk.new }
    ensures owed { owed_by_walk (T.ways it.now) walk.new ≡ owed_by_walk (T.ways it.now) walk.old }
{
    if walk.levels.len() == 0 {
        return match &walk.root {
            Some(known) => Some(it.own_claim(known)),
            None => None,
        };
    }
    Some(tell_newest(it, &mut walk.levels, found))
}

/// Whether some node is owed.
pub(crate) fn owes_some<T: ClaimTree>(it: &T, walk: &Walk<T::Known>) -> bool
    ensures some { OnTrue result (owed_by_walk (T.ways it.now) walk.now ≡ [] → ⊥) }
    ensures none { OnFalse result (owed_by_walk (T.ways it.now) walk.now ≡ []) }
{
    let _ = it;
    if walk.levels.len() > 0 {
        return true;
    }
    walk.root.is_some()
}

/// Goes from the node that is owed next, which is open, to the first of those that are longer by a
/// step, where there is one. What is known of it was not found on the way.
fn enter_next<T: ClaimTree>(it: &T, walk: &mut Walk<T::Known>) -> bool
    requires walk { IsWalk (T.tree it.now) (T.is_of it.now) (T.ways it.now) walk.old }
    requires owes { OwesNext (T.ways it.now) walk.old }
    requires parent { CanGoOn (T.tree it.now) (node_at (T.ways it.now) (levels_of walk.old)) true }
    ensures walk { OnTrue result (IsWalk (T.tree it.now) (T.is_of it.now) (T.ways it.now)
        walk.new) }
    ensures owed { OnTrue result (owed_by_walk (T.ways it.now) walk.new
        ≡ owed_after (T.ways it.now) (levels_of walk.old) true) }
    ensures none { OnFalse result ((T.ways it.now).longer_from (node_at (T.ways it.now) (levels_of walk.old))
        0 ≡ []) }
    ensures same { OnFalse result (walk.new ≡ walk.old) }
{
    let Some(parent) = known_next(it, walk) else {
        return false;
    };
    enter(it, walk, &parent, 0)
}

/// The same, where what is known of it may have been found.
fn go_in<T: ClaimTree>(it: &T, walk: &mut Walk<T::Known>, found: &Option<T::Known>) -> bool
    requires walk { IsWalk (T.tree it.now) (T.is_of it.now) (T.ways it.now) walk.old }
    requires owes { OwesNext (T.ways it.now) walk.old }
    requires parent { CanGoOn (T.tree it.now) (node_at (T.ways it.now) (levels_of walk.old)) true }
    requires found { IsFound (T.is_of it.now) (node_at (T.ways it.now) (levels_of walk.old))
        found.now }
    ensures walk { OnTrue result (IsWalk (T.tree it.now) (T.is_of it.now) (T.ways it.now)
        walk.new) }
    ensures owed { OnTrue result (owed_by_walk (T.ways it.now) walk.new
        ≡ owed_after (T.ways it.now) (levels_of walk.old) true) }
    ensures none { OnFalse result ((T.ways it.now).longer_from (node_at (T.ways it.now) (levels_of walk.old))
        0 ≡ []) }
    ensures same { OnFalse result (walk.new ≡ walk.old) }
{
    match found {
        Some(parent) => enter(it, walk, parent, 0),
        None => enter_next(it, walk),
    }
}

/// Goes on from the node that was owed next: where it is open, to those that are longer by a step
/// first. What is known of it may have been found.
pub fn go_on<T: ClaimTree>(
    it: &T,
    walk: &mut Walk<T::Known>,
    is_open: bool,
    found: &Option<T::Known>,
)
    requires walk { IsWalk (T.tree it.now) (T.is_of it.now) (T.ways it.now) walk.old }
    requires owes { OwesNext (T.ways it.now) walk.old }
    requires parent { CanGoOn (T.tree it.now) (node_at (T.ways it.now) (levels_of walk.old))
        is_open }
    requires found { IsFound (T.is_of it.now) (node_at (T.ways it.now) (levels_of walk.old))
        found.now }
    ensures walk { IsWalk (T.tree it.now) (T.is_of it.now) (T.ways it.now) walk.new }
    ensures owed { owed_by_walk (T.ways it.now) walk.new
        ≡ owed_after (T.ways it.now) (levels_of walk.old) is_open }
{
    if is_open {
        if go_in(it, walk, found) {
            return;
        }
    }
    go_up(it, walk);
}
