// The queue of a search: a binary heap of the nodes that were met and aren't settled, the least key first. It lies in the words
// that the room lends for a queue, and takes no memory.
ghost use Rattle.std.specs.Prelude.{◌≡◌, ◌≢◌, ◌<◌, ◌≤◌, ◌≤ℤ◌};
ghost use Rattle.kilter_solver.specs.Spread.{key, IsNearestOf};
ghost use Rattle.kilter_solver.specs.Heap.{slot, place, size, slot_key, IsFilled, IsQueued, IsHeap, IsHeapUpTo, IsHeapBelow, IsLeastChildOf, IsPut, IsResized, IsSwapped, IsShuffled, IsInserted, IsDecreased, IsTaken, IsFirstOf, IsWaiting};

use crate::words::{key, set_key};
use painted_search::Work;
use theory::NodeId;

/// How many nodes wait.
fn size(work: &Work) -> usize
    ensures { result ≡ size work.now }
{
    work.queue(2 * work.nodes()) as usize
}

fn slot(work: &Work, k: usize) -> NodeId
    requires { k < work.now.nodes }
    ensures { result.0 ≡ slot work.now k }
{
    NodeId(work.queue(k))
}

fn place(work: &Work, node: NodeId) -> usize
    requires { node.0 < work.now.nodes }
    ensures { result ≡ place work.now node.0 }
{
    work.queue(work.nodes() + node.0 as usize) as usize
}

fn slot_key(work: &Work, k: usize) -> i64
    requires there { k < work.now.nodes }
    requires filled { slot work.now k < work.now.nodes }
    ensures { result ≡ slot_key work.now k }
{
    key(work, slot(work, k))
}

/// Gives the slot to the node.
fn put(work: &mut Work, k: usize, node: NodeId)
    requires there { k < work.old.nodes }
    requires node { node.0 < work.old.nodes }
    ensures { IsPut work.old work.new k node.0 }
{
    work.set_queue(k, node.0);
    work.set_queue(work.nodes() + node.0 as usize, k as u32);
}

fn resize(work: &mut Work, count: usize)
    requires { count ≤ work.old.nodes }
    ensures { IsResized work.old work.new count }
{
    work.set_queue(2 * work.nodes(), count as u32);
}

fn swap(work: &mut Work, a: usize, b: usize)
    requires filled { IsFilled work.old }
    requires first { a < size work.old }
    requires second { b < size work.old }
    ensures swapped { IsSwapped work.old work.new a b }
    ensures filled { IsFilled work.new }
    ensures shuffled { IsShuffled work.old work.new }
{
    let (first, second) = (slot(work, a), slot(work, b));
    put(work, a, second);
    put(work, b, first);
}

/// Moves the node in the slot up until its parent isn't above it.
fn sift_up(work: &mut Work, k: usize)
    requires heap { IsHeapUpTo work.old k }
    requires there { k < size work.old }
    ensures heap { IsHeap work.new }
    ensures shuffled { IsShuffled work.old work.new }
{
    let mut low = k;
    while low > 0 {
        let parent = (low - 1) / 2;
        if slot_key(work, parent) <= slot_key(work, low) {
            return;
        }
        swap(work, parent, low);
        low = parent;
    }
}

/// Slot b if it is held and its key is less than that of slot a, else a.
fn lesser(work: &Work, a: usize, b: usize) -> usize
    requires filled { IsFilled work.now }
    requires order { a < b }
    ensures either { (result ≢ a) → result ≡ b }
    ensures there { (result ≢ a) → b < size work.now }
    ensures less { (result ≢ a) → (slot_key work.now a ≤ℤ slot_key work.now b → ⊥) }
    ensures least { b < size work.now → slot_key work.now result ≤ℤ slot_key work.now b }
{
    if b < size(work) && slot_key(work, b) < slot_key(work, a) {
        b
    } else {
        a
    }
}

/// The least child of the slot, where it is less than the slot.
fn lesser_child(work: &Work, k: usize) -> Option<usize>
    requires filled { IsFilled work.now }
    requires there { k < work.now.nodes }
    ensures { IsLeastChildOf work.now k result }
{
    let left = lesser(work, k, 2 * k + 1);
    let least = lesser(work, left, 2 * k + 2);
    if least == k { None } else { Some(least) }
}

/// Moves the node in the first slot down until no child is below it.
fn sift_down(work: &mut Work)
    requires { IsHeapBelow work.old 0 }
    ensures heap { IsHeap work.new }
    ensures shuffled { IsShuffled work.old work.new }
{
    let mut high = 0;
    while let Some(child) = lesser_child(work, high) {
        swap(work, high, child);
        high = child;
    }
}

/// No node waits.
pub(crate) fn clear(work: &mut Work)
    ensures { IsResized work.old work.new 0 }
{
    resize(work, 0);
}

/// Puts a node that doesn't wait into the queue.
pub(crate) fn insert(work: &mut Work, node: NodeId, new_key: i64)
    requires heap { IsHeap work.old }
    requires there { node.0 < work.old.nodes }
    requires new { IsQueued work.old node.0 → ⊥ }
    ensures heap { IsHeap work.new }
    ensures inserted { IsInserted work.old work.new node.0 new_key }
{
    let last = size(work);
    set_key(work, node, new_key);
    put(work, last, node);
    resize(work, last + 1);
    sift_up(work, last);
}

/// Gives a node that waits a lesser key.
pub(crate) fn decrease(work: &mut Work, node: NodeId, new_key: i64)
    requires heap { IsHeap work.old }
    requires there { node.0 < work.old.nodes }
    requires queued { IsQueued work.old node.0 }
    requires less { new_key ≤ℤ key work.old node.0 }
    ensures heap { IsHeap work.new }
    ensures decreased { IsDecreased work.old work.new node.0 new_key }
{
    set_key(work, node, new_key);
    sift_up(work, place(work, node));
}

/// Takes the node with the least key out of the queue.
pub(crate) fn take_least(work: &mut Work)
    requires heap { IsHeap work.old }
    requires some { 0 < size work.old }
    ensures heap { IsHeap work.new }
    ensures taken { IsTaken work.old work.new }
{
    let last = size(work) - 1;
    swap(work, 0, last);
    resize(work, last);
    sift_down(work);
}

/// The node to be settled next.
pub(crate) fn nearest(work: &Work) -> Option<NodeId>
    requires { IsWaiting work.now }
    ensures nearest { IsNearestOf work.now result }
    ensures first { IsFirstOf work.now result }
{
    if size(work) == 0 {
        None
    } else {
        Some(slot(work, 0))
    }
}
