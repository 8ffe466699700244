//! What waits for its turn, by floors.
ghost use Rattle.std.specs.Prelude.{◌≡◌, ◌<◌, ◌≤◌, ◌∷◌, [], length, IfOk, IfSome, IfNone, All, IsPermutation};
ghost use Rattle.std.specs.BinaryHeap.{heap_items, heap_capacity, IsHeap};
ghost use Rattle.std.specs.Bool.{OnTrue, OnFalse};
ghost use Rattle.tree_search.specs.Entries.{entry_of, entry_cmp};
ghost use Rattle.tree_search.specs.Queues.{IsQueue, entries};

use fux_pitch::Memory;
use std::alloc::Global;
use std::cmp::Reverse;
use std::collections::BinaryHeap;

/// Floors with the numbers of entries, as a heap.
type Heap = BinaryHeap<(Reverse<u64>, u32)>;

/// Adds an entry to a heap that has room for it.
fn push(heap: &mut Heap, floor: u64, entry: u32)
    requires heap { IsHeap entry_cmp (heap_items heap.old) }
    requires room { length (heap_items heap.old) < heap_capacity heap.old }
    ensures pushed { IsPermutation (entry_of floor entry ∷ heap_items heap.old)
        (heap_items heap.new) }
    ensures heap { IsHeap entry_cmp (heap_items heap.new) }
    ensures capacity { heap_capacity heap.old ≤ heap_capacity heap.new }
{
    let _ = heap.push((Reverse(floor), entry));
}

/// Floors with the numbers of entries: the least floor comes first, and of equal floors the latest
/// entry, so that a search goes down before it goes on. An entry that is added as the first of all
/// is kept beside the heap: where a search goes down, each entry is taken as soon as it is added,
/// and the heap is left alone.
#[derive(Drop)]
pub struct Queue {
    /// An entry that comes before all of the heap, where one is known.
    first: Option<(u64, u32)>,
    /// The others.
    heap: Heap,
}

// So an entry that waits takes 16 bytes.
const _: () = prove!(size_of::<(Reverse<u64>, u32)>() == 16);

impl Queue {
    /// An empty queue with room for so many entries.
    pub fn with_capacity(alloc: Global, most: usize) -> Result<Queue, Memory>
        ensures capacity { IfOk result (λ queue. heap_capacity queue.heap ≡ most) }
        ensures empty { IfOk result (λ queue. entries queue ≡ []) }
        ensures queue { IfOk result IsQueue }
    {
        let heap = BinaryHeap::with_capacity(alloc, most)?;
        Ok(Queue { first: None, heap })
    }

    /// Whether an entry of this floor that is added now comes first.
    #[inline]
    fn comes_first(&self, floor: u64) -> bool
        requires { IsQueue self.now }
        ensures first { OnTrue result (All (λ other. floor ≤ other.0.0) (entries self.now)) }
        ensures later { OnFalse result (IfSome self.now.first (λ first. first.0 ≤ floor)) }
    {
        if let Some((least, _)) = self.first {
            return floor <= least;
        }
        match self.heap.peek() {
            None => true,
            Some((Reverse(least), _)) => floor <= *least,
        }
    }

    /// Adds an entry that is later than all others. There is room for it.
    pub fn put(&mut self, floor: u64, entry: u32)
        requires queue { IsQueue self.old }
        requires room { length (entries self.old) < heap_capacity self.old.heap }
        ensures put { IsPermutation (entry_of floor entry ∷ entries self.old) (entries self.new) }
        ensures queue { IsQueue self.new }
        ensures capacity { heap_capacity self.old.heap ≤ heap_capacity self.new.heap }
    {
        if !self.comes_first(floor) {
            push(&mut self.heap, floor, entry);
            return;
        }
        let before = self.first;
        self.first = Some((floor, entry));
        if let Some((least, earlier)) = before {
            push(&mut self.heap, least, earlier);
        }
    }

    /// Takes out the first entry.
    pub fn take(&mut self) -> Option<(u64, u32)>
        requires { IsQueue self.old }
        ensures taken { IfSome result (λ entry. IsPermutation (entries self.old)
            (entry_of entry.0 entry.1 ∷ entries self.new)) }
        ensures least { IfSome result (λ entry. All (λ other. entry.0 ≤ other.0.0)
            (entries self.new)) }
        ensures queue { IfSome result (λ _. IsQueue self.new) }
        ensures capacity { heap_capacity self.new.heap ≡ heap_capacity self.old.heap }
        ensures none { IfNone result (entries self.old ≡ []) }
    {
        if let Some(first) = self.first {
            self.first = None;
            return Some(first);
        }
        match self.heap.pop() {
            None => None,
            Some((Reverse(floor), entry)) => Some((floor, entry)),
        }
    }
}
