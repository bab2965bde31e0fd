// The working room of a solve: all that its passes write, taken once.
ghost use Rattle.std.specs.Prelude.{◌≡◌, ◌≤◌, length};
ghost use Rattle.painted_search.specs.Laid.{words_for};

use crate::layout::Layout;
use crate::words::{index_of, label_of, mark_of, step_of, word_of};
use std::alloc::{AllocError, Global};
use std::marker::Model;
use theory::{ArcId, NodeId, Step};
use work_region::Region;

/// A flow for each arc, a potential, a mark and a label for each node, and a walk. Marks and labels speak of the last search: after
/// it a node has no label exactly where the search didn't reach it or began there. Whoever writes them otherwise, by `mark`,
/// `set_label` or `clear_labels`, says what they mean from then on.
#[derive(Drop)]
pub struct Work {
    region: Region,
    layout: Layout,
    // how many steps the walk has
    walk_len: usize,
    // the last word for the queue, behind those that lie in the region
    last: u32,
    ghost full: { length region.carved ≡ words_for layout.nodes layout.arcs },
    ghost short_walk: { walk_len ≤ layout.nodes },
}

impl Model for Work {
    ghost use Rattle.std.specs.Prelude.{[], ◌∷◌, ◌++◌, take, drop, map};
    ghost use Rattle.work_region.specs.Blocks.{block_words};
    ghost use Rattle.painted_search.specs.StepWords.{label_of, step_of, index_of, mark_of};
    ghost use Rattle.painted_search.specs.Room.{Room};
    ghost use Rattle.painted_search.specs.LaidFacts.{sized-laid, scratch-laid, queue-laid};

    ghost Value = { Room };

    ghost view = { λ work. record {
      nodes = work.layout.nodes;
      arcs = work.layout.arcs;
      flows = block_words work.region work.layout.flows;
      potentials = take work.layout.nodes (block_words work.region work.layout.words);
      reached = map mark_of (block_words work.region work.layout.marks);
      labels = map label_of (block_words work.region work.layout.labels);
      walk = map step_of (take work.walk_len (block_words work.region work.layout.walk));
      scratch = drop work.layout.nodes (block_words work.region work.layout.words);
      queue = map index_of (block_words work.region work.layout.queue) ++ work.last ∷ [];
      sized = sized-laid work.region work.layout work.walk_len work.full work.short_walk;
      two_words_each = scratch-laid work.region work.layout work.full;
      two_slots_each = queue-laid work.region work.layout work.last work.full;
    } };
}

impl Work {
    ghost use Rattle.std.specs.Prelude.{◌≡◌, ◌+◌, ◌*◌, ◌<◌, ◌≤◌, length, take, slice_index_or, vec_capacity, None, IfOk};
    ghost use Rattle.std.specs.Borrow.{sem};
    ghost use Rattle.theory.specs.Network.{«at»};
    ghost use Rattle.theory.specs.Cut.{holds};
    ghost use Rattle.theory.specs.Circuit.{step};
    ghost use Rattle.painted_search.specs.Room.{count_most, IsEmpty};
    ghost use Rattle.painted_search.specs.Writes.{with_flow, with_potential, with_scratch, with_queue, with_no_walk, with_step, with_mark, unlabelled, relabelled};
    ghost use Rattle.painted_search.specs.Reaching.{begun, with_reached, with_turned_walk};
    ghost use Rattle.painted_search.specs.Lending.{LendsPotentials};

    /// Room for this many nodes and arcs.
    pub fn take(alloc: Global, nodes: usize, arcs: usize) -> Result<Work, AllocError>
        requires some_node { 1 ≤ nodes }
        requires few_nodes { nodes ≤ count_most }
        requires few_arcs { arcs ≤ count_most }
        ensures { IfOk result (IsEmpty nodes arcs) }
    {
        let mut region = Region::take(alloc, Layout::words_for(nodes, arcs))?;
        let layout = Layout::carve(&mut region, nodes, arcs);
        Ok(Work {
            region,
            layout,
            walk_len: 0,
            last: 0,
        })
    }

    pub fn nodes(&self) -> usize
        ensures { result ≡ self.now.nodes }
    {
        self.layout.nodes
    }

    pub fn arcs(&self) -> usize
        ensures { result ≡ self.now.arcs }
    {
        self.layout.arcs
    }

    pub fn flow(&self, arc: ArcId) -> i64
        requires { arc.0 < self.now.arcs }
        ensures { result ≡ «at» self.now.flows arc.0 }
    {
        self.region.get(&self.layout.flows, arc.0 as usize)
    }

    pub fn set_flow(&mut self, arc: ArcId, flow: i64)
        requires { arc.0 < self.old.arcs }
        ensures { self.new ≡ with_flow self.old arc.0 flow }
    {
        self.region.set(&self.layout.flows, arc.0 as usize, flow);
    }

    pub fn potential(&self, node: NodeId) -> i64
        requires { node.0 < self.now.nodes }
        ensures { result ≡ «at» self.now.potentials node.0 }
    {
        self.region.get(&self.layout.words, node.0 as usize)
    }

    pub fn set_potential(&mut self, node: NodeId, potential: i64)
        requires { node.0 < self.old.nodes }
        ensures { self.new ≡ with_potential self.old node.0 potential }
    {
        self.region
            .set(&self.layout.words, node.0 as usize, potential);
    }

    /// Whether the node is marked: after a search, whether the search reached it.
    pub fn reached(&self, node: NodeId) -> bool
        requires { node.0 < self.now.nodes }
        ensures { result ≡ holds self.now.reached node.0 }
    {
        mark_of(self.region.get(&self.layout.marks, node.0 as usize))
    }

    /// The step that the node was labelled by last: after a search, the one that reached it. `search` says where there is none.
    pub fn label(&self, node: NodeId) -> Option<Step>
        requires { node.0 < self.now.nodes }
        ensures { result ≡ slice_index_or self.now.labels node.0 None }
    {
        label_of(self.region.get(&self.layout.labels, node.0 as usize))
    }

    /// Labels the node, without a mark and without a search.
    pub fn set_label(&mut self, node: NodeId, step: Step)
        requires { node.0 < self.old.nodes }
        ensures { self.new ≡ relabelled self.old node.0 step }
    {
        self.region
            .set(&self.layout.labels, node.0 as usize, word_of(step));
    }

    /// No node has a label, and the marks stay.
    pub fn clear_labels(&mut self)
        ensures { self.new ≡ unlabelled self.old }
    {
        self.region.fill(&self.layout.labels, 0);
    }

    pub fn walk_len(&self) -> usize
        ensures { result ≡ length self.now.walk }
    {
        self.walk_len
    }

    pub fn walk_step(&self, k: usize) -> Step
        requires { k < length self.now.walk }
        ensures { result ≡ step self.now.walk k }
    {
        step_of(self.region.get(&self.layout.walk, k))
    }

    pub fn clear_walk(&mut self)
        ensures { self.new ≡ with_no_walk self.old }
    {
        self.walk_len = 0;
    }

    pub fn push_step(&mut self, step: Step)
        requires { length self.old.walk < self.old.nodes }
        ensures { (room : length self.old.walk < self.old.nodes) → self.new ≡ with_step self.old step room }
    {
        self.region
            .set(&self.layout.walk, self.walk_len, word_of(step));
        self.walk_len += 1;
    }

    /// The flows, one for each arc.
    pub fn flows(&self) -> &[i64]
        ensures { result.now ≡ self.now.flows }
    {
        self.region.words(&self.layout.flows)
    }

    /// The potentials, one for each node.
    pub fn potentials(&self) -> &[i64]
        ensures { result.now ≡ self.now.potentials }
    {
        &self.region.words(&self.layout.words)[..self.layout.nodes]
    }

    /// Puts the marks, one for each node, in the place of a list's items; the list has room for them.
    pub fn put_marks(&self, list: &mut Vec<bool>)
        requires room { self.now.nodes ≤ vec_capacity list.old }
        ensures items { list.new.items ≡ self.now.reached }
        ensures capacity { vec_capacity list.new ≡ vec_capacity list.old }
    {
        list.clear();
        for word in self.region.words(&self.layout.marks) {
            list.push_reserved(mark_of(*word));
        }
    }

    /// Puts the steps of the walk in the place of a list's items; the list has room for them.
    pub fn put_walk(&self, list: &mut Vec<Step>)
        requires room { length self.now.walk ≤ vec_capacity list.old }
        ensures items { list.new.items ≡ self.now.walk }
        ensures capacity { vec_capacity list.new ≡ vec_capacity list.old }
    {
        list.clear();
        for word in &self.region.words(&self.layout.walk)[..self.walk_len] {
            list.push_reserved(step_of(*word));
        }
    }

    /// Lends the potentials with twice as many words behind them, for the caller's own use.
    pub fn potentials_mut(&mut self) -> &mut [i64]
        ensures* writes_back { sem 𝓛 (LendsPotentials self.entry result) }
        ensures words { length result.now ≡ 3 * self.old.nodes }
        ensures potentials { take self.old.nodes result.now ≡ self.old.potentials }
    {
        let words = self.layout.words;
        self.region.words_mut(&words)
    }

    /// One of the words behind the potentials.
    pub fn scratch(&self, k: usize) -> i64
        requires { k < 2 * self.now.nodes }
        ensures { result ≡ «at» self.now.scratch k }
    {
        self.region.get(&self.layout.words, self.layout.nodes + k)
    }

    pub fn set_scratch(&mut self, k: usize, word: i64)
        requires { k < 2 * self.old.nodes }
        ensures { self.new ≡ with_scratch self.old k word }
    {
        let place = self.layout.nodes + k;
        self.region.set(&self.layout.words, place, word);
    }

    /// One of the words for a queue of nodes: two for each node, and one more.
    pub fn queue(&self, k: usize) -> u32
        requires { k < 2 * self.now.nodes + 1 }
        ensures { result ≡ slice_index_or self.now.queue k 0 }
    {
        if k < self.layout.nodes * 2 {
            index_of(self.region.get(&self.layout.queue, k))
        } else {
            self.last
        }
    }

    pub fn set_queue(&mut self, k: usize, word: u32)
        requires { k < 2 * self.old.nodes + 1 }
        ensures { self.new ≡ with_queue self.old k word }
    {
        if k < self.layout.nodes * 2 {
            self.region.set(&self.layout.queue, k, i64::from(word));
        } else {
            self.last = word;
        }
    }

    /// Marks the node as reached, by no step.
    pub fn mark(&mut self, node: NodeId)
        requires { node.0 < self.old.nodes }
        ensures { self.new ≡ with_mark self.old node.0 }
    {
        let place = node.0 as usize;
        self.region.set(&self.layout.marks, place, 1);
    }

    /// Reaches one node alone, by no step.
    pub fn begin_at(&mut self, root: NodeId)
        requires { root.0 < self.old.nodes }
        ensures { self.new ≡ begun self.old root.0 }
    {
        self.region.fill(&self.layout.marks, 0);
        self.region.fill(&self.layout.labels, 0);
        self.walk_len = 0;
        self.region.set(&self.layout.marks, root.0 as usize, 1);
    }

    /// Reaches the node by the step, and adds the step to the walk.
    pub(crate) fn reach(&mut self, node: NodeId, step: Step)
        requires there { node.0 < self.old.nodes }
        requires room { length self.old.walk < self.old.nodes }
        ensures { (room : length self.old.walk < self.old.nodes) → self.new ≡ with_reached self.old node.0 step room }
    {
        self.region.set(&self.layout.marks, node.0 as usize, 1);
        self.region
            .set(&self.layout.labels, node.0 as usize, word_of(step));
        self.push_step(step);
    }

    /// Reverses the order of the walk's steps.
    pub fn turn_walk(&mut self)
        ensures { self.new ≡ with_turned_walk self.old }
    {
        self.region.reverse(&self.layout.walk, self.walk_len);
    }
}
