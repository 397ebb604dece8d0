//! `NamedMarks`: the marks that unanswered steps name, and the least of their places.

ghost use Rattle.std.specs.Prelude.{◌≡◌, ℕ, ◌+◌, ◌≤◌, ◌<◌};
ghost use Rattle.std.specs.Prelude.{◌∷◌, [], List, length, slice_get, get_or};
ghost use Rattle.std.specs.Prelude.{IfOk, IfSome, Some};
ghost use Rattle.std.specs.List.{All};
ghost use Rattle.std.specs.List.Sorted.{IsPermutation};
ghost use Rattle.std.specs.BinaryHeap.{heap_items, heap_len, heap_capacity, IsHeap, KeepsHeap};
ghost use Rattle.winnow_script_feed.specs.Reach.{step_mark};
ghost use Rattle.winnow_script_feed.specs.NamedMarks.{AreEnds, ended, Entry, by_place, Queues};
ghost use Rattle.winnow_script_feed.specs.NamedMarks.{IsLeastNamed, KnowsMarks};

use std::alloc::{AllocError, Global};
use std::cmp::Reverse;
use std::collections::BinaryHeap;
use winnow_script_run::SearchStep;
use winnow_sets::CharSet;

/// The marks that steps without an answer name. A mark's end is the number of steps up to the last
/// that names it, or 0 if none does.
#[derive(Drop)]
pub(crate) struct NamedMarks {
    // The end of each mark.
    ends: Vec<usize>,
    // The place and the end of marks, the least place first. A mark that is not named any more
    // leaves once it is the first.
    queue: BinaryHeap<Reverse<(usize, usize)>>,
    // The number of marks that were considered.
    seen: usize,
}

// Returns the number of the mark that a step names, if it names one.
fn step_mark<L>(step: &SearchStep<CharSet, L>) -> Option<usize>
    ensures { result ≡ step_mark step.now }
{
    match step {
        SearchStep::Call(call) => call.mark(),
        SearchStep::Compare(_) => None,
        SearchStep::Find(_) => None,
    }
}

// Sets the end of the mark, if there can be a mark with that number.
fn set_end(ends: &mut Vec<usize>, mark: Option<usize>, end: usize)
    ensures { ends.new.items ≡ ended ends.old.items mark end }
{
    if let Some(number) = mark {
        if number < ends.len() {
            ends[number] = end;
        }
    }
}

// Returns the end of each mark that the script may make.
fn ends_of<L>(alloc: Global, script: &[SearchStep<CharSet, L>]) -> Result<Vec<usize>, AllocError>
    ensures ends { IfOk result (λ ends.
        AreEnds script.now (length script.now) ends.items) }
    ensures len { IfOk result (λ ends. length ends.items ≡ length script.now) }
{
    let mut ends = vec![in alloc; 0; script.len()]?;
    let mut i = 0;
    while i < script.len() {
        set_end(&mut ends, step_mark(&script[i]), i + 1);
        i += 1;
    }
    Ok(ends)
}

// Returns the first of the queue.
fn first_of(queue: &BinaryHeap<Reverse<(usize, usize)>>) -> Option<Reverse<(usize, usize)>>
    ensures first { result ≡ slice_get (heap_items queue.now) 0 }
    ensures least { IfSome result (λ first. IsHeap by_place (heap_items queue.now)
        → All (λ e. first.0.0 ≤ e.0.0) (heap_items queue.now)) }
{
    match queue.peek() {
        Some(first) => Some(*first),
        None => None,
    }
}

// Removes the first of the queue.
fn remove_first(queue: &mut BinaryHeap<Reverse<(usize, usize)>>)
    requires { 0 < heap_len queue.old }
    ensures rest { (first : Entry) → slice_get (heap_items queue.old) 0 ≡ Some first
        → IsPermutation (heap_items queue.old) (first ∷ heap_items queue.new) }
    ensures order { KeepsHeap by_place (heap_items queue.old) (heap_items queue.new) }
    ensures capacity { heap_capacity queue.new ≡ heap_capacity queue.old }
    ensures len { heap_len queue.new + 1 ≡ heap_len queue.old }
{
    match queue.pop() {
        Some(_) => {}
        None => unreachable!(),
    }
}

// Returns the least place of the marks in the queue that a step from number `told` on names. Those
// before it, which none names any more, leave the queue.
fn first_named(queue: &mut BinaryHeap<Reverse<(usize, usize)>>, told: usize) -> Option<usize>
    ensures finds { (ends marks : List ℕ) → (seen : ℕ)
        → Queues ends marks told seen (heap_items queue.old)
        → Queues ends marks told seen (heap_items queue.new)
        × IsLeastNamed ends marks told seen result }
    ensures capacity { heap_capacity queue.new ≡ heap_capacity queue.old }
{
    while let Some(Reverse((place, end))) = first_of(queue) {
        if told < end {
            return Some(place);
        }
        remove_first(queue);
    }
    None
}

// Adds a mark to the queue if a step from number `told` on names it. There is room for it.
fn enqueue(queue: &mut BinaryHeap<Reverse<(usize, usize)>>, place: usize, end: usize, told: usize)
    requires { heap_len queue.old < heap_capacity queue.old }
    ensures queues { (ends marks : List ℕ) → (seen : ℕ)
        → slice_get marks seen ≡ Some place → get_or ends seen 0 ≡ end
        → Queues ends marks told seen (heap_items queue.old)
        → Queues ends marks told (seen + 1) (heap_items queue.new) }
    ensures capacity { heap_capacity queue.old ≤ heap_capacity queue.new }
{
    if end <= told {
        return;
    }
    match queue.push(Reverse((place, end))) {
        Ok(()) => {}
        Err(_) => unreachable!(),
    }
}

impl NamedMarks {
    /// Returns what is known of the marks of a script before any is made. There is room for each.
    pub(crate) fn new<L>(
        alloc: Global,
        script: &[SearchStep<CharSet, L>],
    ) -> Result<Self, AllocError>
        ensures { IfOk result (KnowsMarks script.now [] 0) }
    {
        let ends = ends_of(alloc, script)?;
        let queue = BinaryHeap::with_capacity(alloc, script.len())?;
        Ok(NamedMarks {
            ends,
            queue,
            seen: 0,
        })
    }

    // Puts the marks that were made since into the queue, if a step from number `told` on names
    // them.
    fn see(&mut self, marks: &[usize], told: usize)
        requires queues { Queues self.old.ends.items marks.now told self.old.seen
            (heap_items self.old.queue) }
        requires made { length marks.now ≤ length self.old.ends.items }
        requires room { length marks.now ≤ heap_capacity self.old.queue }
        ensures queues { Queues self.old.ends.items marks.now told (length marks.now)
            (heap_items self.new.queue) }
        ensures seen { self.new.seen ≡ length marks.now }
        ensures ends { self.new.ends ≡ self.old.ends }
        ensures capacity { heap_capacity self.old.queue ≤ heap_capacity self.new.queue }
    {
        while self.seen < marks.len() {
            let mark = self.seen;
            enqueue(&mut self.queue, marks[mark], self.ends[mark], told);
            self.seen += 1;
        }
    }

    /// Returns the least place of the marks that a step from number `told` on names, if it names
    /// one that was made.
    pub(crate) fn least(&mut self, marks: &[usize], told: usize) -> Option<usize>
        requires queues { Queues self.old.ends.items marks.now told self.old.seen
            (heap_items self.old.queue) }
        requires made { length marks.now ≤ length self.old.ends.items }
        requires room { length marks.now ≤ heap_capacity self.old.queue }
        ensures least { IsLeastNamed self.old.ends.items marks.now told (length marks.now) result }
        ensures queues { Queues self.old.ends.items marks.now told (length marks.now)
            (heap_items self.new.queue) }
        ensures seen { self.new.seen ≡ length marks.now }
        ensures ends { self.new.ends ≡ self.old.ends }
        ensures capacity { heap_capacity self.old.queue ≤ heap_capacity self.new.queue }
    {
        self.see(marks, told);
        first_named(&mut self.queue, told)
    }
}
