//! Best first: the node of least floor is opened next.
ghost use Rattle.std.specs.Prelude.{◌≡◌, ℕ, ◌<◌, ◌≤◌, ◌+◌, ◌^◌, ◌++◌, ◌∷◌, ◌↔◌, [], length, IfSome, IfNone, IfOk, IsPermutation, vec_capacity};
ghost use Rattle.std.specs.BinaryHeap.{heap_capacity};
ghost use Rattle.std.specs.Bool.{OnTrue, OnFalse};
ghost use Rattle.tree_search.specs.Answer.{AreLowerLoadsWithin, AtMost, IsLiveBelowRoot, IsLoaded, Many};
ghost use Rattle.tree_search.specs.Links.{path_in};
ghost use Rattle.tree_search.specs.Entries.{entry_of};
ghost use Rattle.tree_search.specs.Queues.{IsQueue, entries};
ghost use Rattle.tree_search.specs.Trails.{LeadsTo, Leads, node_in};
ghost use Rattle.tree_search.specs.Nth.{AreFewerBelow, HasOnly, IsNthLeaf, IsOverNth};
ghost use Rattle.tree_search.specs.Numbered.{IfFound, IfOnly, IfSpent, IsSpent};
ghost use Rattle.tree_search.specs.Finds.{IsFinds, kept};
ghost use Rattle.tree_search.specs.Space.{AreDeadBetween, HasChild};
ghost use Rattle.tree_search.specs.Fronts.{IsLoadAbove, IsClosedAt, next_number, IsOpen, HasRoom, SameTaken};

use crate::finds::Finds;
use crate::links::Link;
use crate::outcome::Numbered;
use crate::queue::Queue;
use crate::space::Space;
use crate::trail::{Trail, go_to, make_child, node_at, place, start_trail};
use fux_pitch::Memory;
use std::alloc::Global;

/// The nodes met so far, as entries. A node is made again from its entry's links.
#[derive(Drop)]
pub struct Front {
    /// How each entry but the root hangs from an earlier one.
    links: Vec<Link>,
    /// The entries that are not opened yet.
    waiting: Queue,
    /// The leaves that are kept of those that were met.
    finds: Finds,
}

// So each unit of the budget takes 24 bytes: 8 for a link, and 16 for an entry that waits.
const _: () = prove!(size_of::<Link>() == 8);

/// The room of a front: a link and an entry that waits for each unit of the budget, and one entry
/// for the root.
fn room_for(alloc: Global, budget: u32) -> Result<(Vec<Link>, Queue), Memory>
    ensures links { IfOk result (λ room. vec_capacity room.0 ≡ budget) }
    ensures waiting { IfOk result (λ room. heap_capacity room.1.heap ≡ budget + 1) }
    ensures unlinked { IfOk result (λ room. room.0.items ≡ []) }
    ensures empty { IfOk result (λ room. entries room.1 ≡ []) }
    ensures queue { IfOk result (λ room. IsQueue room.1) }
{
    let most = budget as usize;
    let links = Vec::with_capacity(alloc, most)?;
    let waiting = Queue::with_capacity(alloc, most + 1)?;
    Ok((links, waiting))
}

/// A front of the root alone, which waits, and which keeps no more leaves than this. The memory of
/// what waits is taken here.
fn start_front(alloc: Global, floor: u64, nth: u32, budget: u32) -> Result<Front, Memory>
    ensures links { IfOk result (λ front. front.links.items ≡ []) }
    ensures waiting { IfOk result (λ front.
        IsPermutation (entry_of floor 0 ∷ []) (entries front.waiting)) }
    ensures queue { IfOk result (λ front. IsQueue front.waiting) }
    ensures most { IfOk result (λ front. front.finds.most ≡ nth) }
    ensures none { IfOk result (λ front. kept front.finds ≡ []) }
    ensures finds { IfOk result (λ front. IsFinds front.finds) }
    ensures room { IfOk result (HasRoom budget) }
{
    let (links, waiting) = room_for(alloc, budget)?;
    let mut front = Front {
        links,
        waiting,
        finds: Finds::new(alloc, nth),
    };
    front.waiting.put(floor, 0);
    Ok(front)
}

/// Adds an entry, which waits. There is room for it.
fn add(front: &mut Front, floor: u64, link: Link, budget: u32)
    requires queue { IsQueue front.old.waiting }
    requires room { HasRoom budget front.old }
    requires left { length front.old.links.items < budget }
    ensures links { front.new.links.items ≡ front.old.links.items ++ link ∷ [] }
    ensures waiting { IsPermutation (entry_of floor (next_number front.old)
        ∷ entries front.old.waiting) (entries front.new.waiting) }
    ensures queue { IsQueue front.new.waiting }
    ensures finds { front.new.finds ≡ front.old.finds }
    ensures room { HasRoom budget front.new }
{
    let _ = front.links.push(link);
    let entry = front.links.len() as u32;
    front.waiting.put(floor, entry);
}

/// The entry that is open: how far the trail leads to it, its number, and how many children it has.
#[derive(Clone, Copy)]
struct Opened {
    level: usize,
    entry: u32,
    count: usize,
}

/// The number of the child that is to be met behind a live one; the count where there is none.
#[inline]
fn next_after<S: Space>(space: &S, node: &S::Node, k: usize, count: usize) -> usize
    requires child { HasChild (S.is_at space.now node.now) (S.height space.now) (S.width space.now)
        k }
    requires within { k < count }
    ensures onward { k < result }
    ensures within { result ≤ count }
    ensures behind { result < count → result ≡ k + 1 }
    ensures passed { AreDeadBetween (S.is_at space.now node.now) (S.live space.now) k result }
{
    if space.is_last(node, k) {
        return count;
    }
    k + 1
}

/// Meets one child of the open entry. The trail goes on to the child if that is live and no higher
/// than the least one met so far: so in the end it leads to the child that is opened before the
/// others. No answer depends on it. It tells the number of the child that is to be met next, the
/// count where there is none; nothing where the budget isn't enough.
fn take_child<S: Space>(
    space: &S,
    front: &mut Front,
    trail: &mut Trail<S::Node>,
    opened: Opened,
    k: usize,
    least: &mut u64,
    budget: u32,
) -> Option<usize>
    requires open { IsOpen (S.live space.now) (S.height space.now) front.old opened.entry k }
    requires parent { LeadsTo (S.is_at space.now) (S.height space.now) front.old.links.items
        trail.old opened.level opened.entry }
    requires trail { Leads (S.is_at space.now) (S.height space.now) front.old.links.items
        trail.old }
    requires above { opened.level < S.height space.now }
    requires within { k < opened.count }
    requires told { (d : S.Node) → S.is_told space.now (node_in trail.old.nodes opened.level d) k }
    requires count { opened.count
        ≡ S.width space.now (path_in front.old.links.items opened.entry) }
    requires few { opened.count ≤ 2 ^ 16 }
    requires room { HasRoom budget front.old }
    requires queue { IsQueue front.old.waiting }
    ensures open { IfSome result (λ next. IsOpen (S.live space.now) (S.height space.now) front.new
        opened.entry next) }
    ensures onward { IfSome result (λ next. k < next) }
    ensures within { IfSome result (λ next. next ≤ opened.count) }
    ensures behind { IfSome result (λ next. next < opened.count → next ≡ k + 1) }
    ensures node { (d : S.Node) → node_in trail.new.nodes opened.level d
        ≡ node_in trail.old.nodes opened.level d }
    ensures path { path_in front.new.links.items opened.entry
        ≡ path_in front.old.links.items opened.entry }
    ensures parent { LeadsTo (S.is_at space.now) (S.height space.now) front.new.links.items
        trail.new opened.level opened.entry }
    ensures trail { Leads (S.is_at space.now) (S.height space.now) front.new.links.items trail.new }
    ensures room { HasRoom budget front.new }
    ensures queue { IsQueue front.new.waiting }
    ensures taken { SameTaken front.old front.new }
    ensures finds { front.new.finds ≡ front.old.finds }
    ensures spent { IfNone result (IsLoadAbove (S.live space.now) front.old opened.entry budget) }
{
    let Opened {
        level,
        entry,
        count,
    } = opened;
    let Some(floor) = make_child(space, trail, level, k) else {
        return Some(k + 1);
    };
    if front.links.len() == budget as usize {
        return None;
    }
    let next = next_after(space, node_at(&trail.nodes, level), k, count);
    let link = Link {
        parent: entry,
        child: k as u16,
    };
    add(front, floor, link, budget);
    if floor > *least {
        return Some(next);
    }
    *least = floor;
    place(trail, level, k as u16, front.links.len() as u32);
    Some(next)
}

/// Opens the entry to which the trail leads: meets each of its live children. The trail then leads
/// to the last of the least of them, which is opened before the others. It answers whether the
/// budget was enough.
fn open<S: Space>(space: &S, front: &mut Front, trail: &mut Trail<S::Node>, budget: u32) -> bool
    requires open { IsOpen (S.live space.now) (S.height space.now) front.old trail.old.entry 0 }
    requires trail { Leads (S.is_at space.now) (S.height space.now) front.old.links.items
        trail.old }
    requires above { trail.old.level < S.height space.now }
    requires room { HasRoom budget front.old }
    requires queue { IsQueue front.old.waiting }
    ensures closed { OnTrue result (IsClosedAt (S.live space.now) (S.height space.now) front.old
        trail.old.entry front.new) }
    ensures trail { Leads (S.is_at space.now) (S.height space.now) front.new.links.items trail.new }
    ensures room { HasRoom budget front.new }
    ensures queue { IsQueue front.new.waiting }
    ensures taken { SameTaken front.old front.new }
    ensures finds { front.new.finds ≡ front.old.finds }
    ensures spent { OnFalse result (IsLoadAbove (S.live space.now) front.old trail.old.entry
        budget) }
{
    let level = trail.level;
    let entry = trail.entry;
    let count = space.count(node_at(&trail.nodes, level));
    let opened = Opened {
        level,
        entry,
        count,
    };
    let mut from = 0;
    let mut least = u64::MAX;
    while from < count {
        let k = space.next_child(node_at(&trail.nodes, level), from, None);
        if k >= count {
            return true;
        }
        let next = take_child(space, front, trail, opened, k, &mut least, budget);
        let Some(next) = next else {
            return false;
        };
        from = next;
    }
    true
}

/// The leaf of a number, from 1 on, in order of value and then of path, if a budget is enough for
/// the load of its value: the live nodes below the root whose parent's floor is at most that. Where
/// there are fewer leaves the budget has to be enough for all live nodes below the root. Where it
/// is not, the bound is the least floor whose load is above it. Of the memory only that of the
/// leaves that are kept, of this number at most, is taken as the walk goes on; the rest is taken
/// before, 24 bytes for each unit of the budget.
pub fn search_nth<S: Space>(
    alloc: Global,
    space: &S,
    nth: u32,
    budget: u32,
) -> Result<Numbered, Memory>
    requires { 0 < nth }
    ensures found { IfOk result (λ outcome. IfFound outcome (IsNthLeaf (S.live space.now) (S.height space.now)
        nth)) }
    ensures only { IfOk result (λ outcome. IfOnly outcome (HasOnly (S.live space.now) (S.height space.now)
        nth)) }

    // The budget is spent exactly where the load of the leaf's value, or of all where there are
    // fewer leaves, is above it.
    ensures over { IfOk result (λ outcome. IsSpent outcome ↔ IsOverNth (S.live space.now)
        (S.height space.now) nth budget) }
    ensures found_load { IfOk result (λ outcome. IfFound outcome (λ _ value.
        AtMost (IsLoaded (S.live space.now) value) budget)) }
    ensures only_load { IfOk result (λ outcome. IfOnly outcome (λ _. AtMost (IsLiveBelowRoot (S.live space.now))
        budget)) }

    // The bound is the least floor whose load is above the budget, and fewer leaves are below it.
    ensures spent { IfOk result (λ outcome. IfSpent outcome (λ bound.
        Many (IsLoaded (S.live space.now) bound) (budget + 1))) }
    ensures least { IfOk result (λ outcome. IfSpent outcome (AreLowerLoadsWithin (S.live space.now) budget)) }
    ensures bound { IfOk result (λ outcome. IfSpent outcome (AreFewerBelow (S.live space.now)
        (S.height space.now) nth)) }
{
    let depth = space.depth();
    let Some((root, floor)) = space.root() else {
        return Ok(Numbered::Only { count: 0 });
    };
    let mut front = start_front(alloc, floor, nth, budget)?;
    let mut trail = start_trail(space, alloc, root)?;
    'pops: while let Some((floor, entry)) = front.waiting.take() {
        if front.finds.are_lower(floor) {
            return Ok(front.finds.ended());
        }
        go_to(space, &front.links, &mut trail, entry);
        if trail.level == depth {
            front.finds.put(alloc, &trail.path, floor, entry)?;
        } else if !open(space, &mut front, &mut trail, budget) {
            return Ok(Numbered::Spent { bound: floor });
        }
    }
    Ok(front.finds.ended())
}
