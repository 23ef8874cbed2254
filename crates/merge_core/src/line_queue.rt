//! The queue of the lines that wait to be merged.
ghost use Rattle.std.specs.Prelude.{◌≡◌, ◌<◌, true, false, [], ◌∷◌, length, slice_index_or};
ghost use Rattle.std.specs.Prelude.{MatchOption, IfNone, IfSome};
ghost use Rattle.std.specs.BinaryHeap.{heap_items, IsHeap};
ghost use Rattle.std.specs.List.Sorted.{IsPermutation};
ghost use Rattle.cdxj_core.specs.Members.{member_pair};
ghost use Rattle.merge_core.specs.PairOrders.{Alike};
ghost use Rattle.merge_core.specs.WaitingLines.{AllBeyond, Enqueues, NoneBefore, NoneBelow};
ghost use Rattle.merge_core.specs.WaitingLines.{WaitingLine, waiting_cmp, waiting_pair};

use crate::keyed_line::KeyedLine;
use crate::queued_line::QueuedLine;
use std::alloc::{AllocError, Global};
use std::collections::BinaryHeap;
use std::marker::Model;

/// Returns `true` if the line's turn isn't after that of any line of a heap.
#[inline(always)]
#[tactic(auto, using(crate::proofs::QueueLemmas::before_all))]
fn comes_first(waiting: &QueuedLine, heap: &BinaryHeap<QueuedLine>) -> bool
    requires { IsHeap waiting_cmp (heap_items heap.now) }
    ensures { result ≡ true → NoneBefore waiting.now (heap_items heap.now) }
{
    match heap.peek() {
        Some(next) => waiting.cmp(next).is_ge(),
        None => true,
    }
}

/// Adds a line to a heap. If memory can't be allocated, the line is lost.
fn add(heap: &mut BinaryHeap<QueuedLine>, waiting: QueuedLine) -> Result<(), AllocError>
    requires { IsHeap waiting_cmp (heap_items heap.old) }
    ensures heap { IsHeap waiting_cmp (heap_items heap.new) }
    ensures added { Enqueues result (waiting ∷ []) (heap_items heap.old) (heap_items heap.new) }
{
    match heap.push(waiting) {
        Ok(()) => Ok(()),
        Err(_) => Err(AllocError),
    }
}

/// Adds one of two lines to a heap, and returns the other, whose turn isn't after that of any of
/// its lines. If memory can't be allocated, the second is lost.
#[tactic(auto, using(crate::proofs::QueueLemmas::beside_rules))]
fn add_beside(
    heap: &mut BinaryHeap<QueuedLine>,
    first: QueuedLine,
    waiting: QueuedLine,
) -> (QueuedLine, Result<(), AllocError>)
    requires heap { IsHeap waiting_cmp (heap_items heap.old) }
    requires first { NoneBefore first (heap_items heap.old) }
    ensures heap { IsHeap waiting_cmp (heap_items heap.new) }
    ensures first { NoneBefore result.0 (heap_items heap.new) }
    ensures added { Enqueues result.1 (waiting ∷ []) (first ∷ heap_items heap.old)
        (result.0 ∷ heap_items heap.new) }
{
    if waiting.cmp(&first).is_gt() {
        match heap.push(first) {
            Ok(()) => (waiting, Ok(())),
            Err(refused) => (refused.value, Err(AllocError)),
        }
    } else {
        (first, add(heap, waiting))
    }
}

/// A priority queue of the lines that wait, from which the first is removed.
#[derive(Drop)]
pub struct LineQueue {
    /// A line whose turn isn't after that of any other. So the lines of a source pass the heap by
    /// while their turns come first, as all do where only one source has lines.
    first: Option<QueuedLine>,
    heap: BinaryHeap<QueuedLine>,
}

impl Model for LineQueue {
    ghost use Rattle.std.specs.Prelude.{◌++◌, List, option_to_list, IfSome};
    ghost use Rattle.std.specs.BinaryHeap.{heap_items, IsHeap};
    ghost use Rattle.merge_core.specs.WaitingLines.{WaitingLine, waiting_cmp, NoneBefore};

    ghost Value = { List WaitingLine };

    ghost view = { λ q. option_to_list q.first ++ heap_items q.heap };

    ghost invariant = { λ q. IsHeap waiting_cmp (heap_items q.heap)
        × IfSome q.first (λ w. NoneBefore w (heap_items q.heap)) };
}

impl LineQueue {
    /// Creates an empty queue.
    pub fn new(alloc: Global) -> LineQueue
        ensures { result ≡ [] }
    {
        LineQueue {
            first: None,
            heap: BinaryHeap::new(alloc),
        }
    }

    /// Returns the number of lines that wait.
    pub fn len(&self) -> usize
        ensures { result ≡ length self.now }
    {
        self.heap.len() + usize::from(self.first.is_some())
    }

    /// Adds a line. If memory can't be allocated, the line is lost.
    /// The only error is refused memory.
    #[inline(always)]
    pub fn push(&mut self, waiting: QueuedLine) -> Result<(), AllocError>
        ensures { Enqueues result (waiting ∷ []) self.old self.new }
    {
        if self.first.is_none() && comes_first(&waiting, &self.heap) {
            self.first = Some(waiting);
            Ok(())
        } else {
            self.push_later(waiting)
        }
    }

    /// The same by the heap.
    #[inline(never)]
    fn push_later(&mut self, waiting: QueuedLine) -> Result<(), AllocError>
        ensures { Enqueues result (waiting ∷ []) self.old self.new }
    {
        match self.first.take() {
            Some(first) => {
                let (first, added) = add_beside(&mut self.heap, first, waiting);
                self.first = Some(first);
                added
            }
            None => add(&mut self.heap, waiting),
        }
    }

    /// Removes and returns the first line.
    #[inline(always)]
    pub fn pop(&mut self) -> Option<QueuedLine>
        ensures out { MatchOption result ((self.old ≡ []) × (self.new ≡ [])) (λ w.
            IsPermutation self.old (w ∷ self.new)) }
        ensures first { IfSome result (λ w. NoneBefore w self.new) }
        ensures top { IfSome result (λ w. w ≡ slice_index_or self.old 0 w) }
    {
        if self.first.is_some() {
            self.first.take()
        } else {
            self.heap.pop()
        }
    }

    /// Returns the first line.
    #[inline(always)]
    #[tactic(auto, using(crate::proofs::QueueLemmas::before_itself))]
    fn peek(&self) -> Option<&QueuedLine>
        ensures first { IfSome result (λ w. (w.now ≡ slice_index_or self.now 0 w.now)
            × NoneBefore w.now self.now) }
        ensures none { IfNone result (self.now ≡ []) }
    {
        match &self.first {
            Some(first) => Some(first),
            None => self.heap.peek(),
        }
    }

    /// Returns `true` if the first line has the pair of this one.
    #[tactic(auto, using(crate::proofs::GroupLemmas::all_later_unless))]
    fn is_next_at(&self, line: &KeyedLine<'_>) -> bool
        ensures alike { (d : WaitingLine) → 0 < length self.now → result ≡ true
            → Alike (waiting_pair (slice_index_or self.now 0 d)) (member_pair line.now) }
        ensures later { NoneBelow (member_pair line.now) self.now → result ≡ false
            → AllBeyond (member_pair line.now) self.now }
    {
        match self.peek() {
            Some(waiting) => waiting.keyed().compare_pair(line).is_eq(),
            None => false,
        }
    }

    /// Removes and returns the first line, if it has the pair of this one.
    pub fn pop_at(&mut self, line: &KeyedLine<'_>) -> Option<QueuedLine>
        requires { NoneBelow (member_pair line.now) self.old }
        ensures out { MatchOption result ((self.new ≡ self.old)
            × AllBeyond (member_pair line.now) self.new) (λ w.
            IsPermutation self.old (w ∷ self.new)) }
        ensures first { IfSome result (λ w. NoneBefore w self.new) }
        ensures alike { IfSome result (λ w. Alike (waiting_pair w) (member_pair line.now)) }
    {
        if self.is_next_at(line) {
            self.pop()
        } else {
            None
        }
    }
}
