// For each node the steps that begin at it, kept as lists so that a pass over them costs the node's degree.
ghost use Rattle.std.specs.Prelude.{◌≡◌, ◌≢◌, ◌+◌, ◌<◌, List, [], ◌∷◌, ◌++◌, true, false, map, length, slice_index_or, slice_set, OnOk, OnErr, vec_len, vec_capacity};
ghost use Rattle.theory.specs.declared.network.Step.{Step as NetworkStep};
ghost use Rattle.net_incidence.specs.Incidence.{over};

use std::alloc::{AllocError, Global};
use std::marker::Model;
use theory::{ArcId, Step};

/// A list of steps for each node.
#[derive(Drop)]
pub struct Incidence {
    lists: Vec<Vec<Step>>,
}

impl Model for Incidence {
    ghost Value = { List (List NetworkStep) };

    ghost view = { λ incidence. map (λ list. list.items) incidence.lists.items };
}

impl Incidence {
    pub fn new(alloc: Global) -> Self
        ensures { result ≡ [] }
    {
        Incidence {
            lists: Vec::new(alloc),
        }
    }

    pub fn len(&self) -> usize
        ensures { result ≡ length self.now }
    {
        self.lists.len()
    }

    pub fn steps(&self, node: usize) -> &[Step]
        requires { node < length self.now }
        ensures { result.now ≡ slice_index_or self.now node [] }
    {
        self.lists[node].as_slice()
    }

    /// A further node, with no step.
    pub fn add_node(&mut self) -> Result<(), AllocError>
        ensures ok { OnOk result (self.new ≡ self.old ++ [] ∷ []) }
        ensures err { OnErr result (self.new ≡ self.old) }
    {
        let alloc = *self.lists.allocator();
        self.lists.push(Vec::new(alloc))?;
        Ok(())
    }

    /// The two steps over an arc: forward from its tail, backward from its head.
    pub fn add_arc(&mut self, from: usize, to: usize, arc: ArcId) -> Result<(), AllocError>
        requires from_there { from < length self.old }
        requires to_there { to < length self.old }
        requires apart { from ≢ to }
        ensures ok { OnOk result (self.new ≡ slice_set
            (slice_set self.old from (slice_index_or self.old from [] ++ over arc.0 true ∷ []))
            to (slice_index_or self.old to [] ++ over arc.0 false ∷ [])) }
        ensures err { OnErr result (self.new ≡ self.old) }
    {
        self.lists[from].reserve(1)?;
        self.lists[to].reserve(1)?;
        push_within(&mut self.lists[from], Step { arc, forward: true });
        push_within(
            &mut self.lists[to],
            Step {
                arc,
                forward: false,
            },
        );
        Ok(())
    }
}

/// Adds to a list that has room.
pub fn push_within<T: Drop>(list: &mut Vec<T>, item: T)
    requires { vec_len list.old < vec_capacity list.old }
    ensures items { list.new.items ≡ list.old.items ++ item ∷ [] }
{
    match list.push(item) {
        Ok(()) => {}
        Err(_) => unreachable!(),
    }
}
