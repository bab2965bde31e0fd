// Room for every kind of certificate, taken before it is known which kind it will be.
ghost use Rattle.std.specs.Prelude.{◌≡◌, ◌≤◌, length, vec_capacity, None, Some, IfOk};
ghost use Rattle.theory.specs.Certificate.{IsValid, bare};
ghost use Rattle.cert_text.specs.Shown.{shown};
ghost use Rattle.kilter_solver.specs.Left.{left_in, IsLeftValid};

use crate::certifying::{circuit_of, cut_of, pair_of};
use crate::kind::Kind;
use cert_text::Certificate;
use ground_net::Grounded;
use net_incidence::{Flows, Marks, Step, Walk};
use painted_search::Work;
use std::alloc::{AllocError, Global};
use std::marker::Model;

/// Copies of what a solve found in its room: flows, potentials, marks and a walk, of which its kind says which count.
#[derive(Drop)]
pub(crate) struct Evidence {
    nodes: usize,
    arcs: usize,
    kind: Option<Kind>,
    flows: Vec<i64>,
    potentials: Vec<i64>,
    side: Vec<bool>,
    walk: Vec<Step>,
    ghost flows_fit: { arcs ≤ vec_capacity flows },
    ghost potentials_fit: { nodes ≤ vec_capacity potentials },
    ghost side_fits: { nodes ≤ vec_capacity side },
    ghost walk_fits: { nodes ≤ vec_capacity walk },
}

impl Model for Evidence {
    ghost use Rattle.kilter_solver.specs.Left.{Preparation, left_of};

    ghost Value = { Preparation };

    ghost view = { λ e. record {
      nodes = e.nodes;
      arcs = e.arcs;
      left = left_of e.kind e.flows.items e.potentials.items e.side.items e.walk.items;
    } };
}

impl Evidence {
    pub(crate) fn take(alloc: Global, nodes: usize, arcs: usize) -> Result<Evidence, AllocError>
        ensures nodes { IfOk result (λ e. e.nodes ≡ nodes) }
        ensures arcs { IfOk result (λ e. e.arcs ≡ arcs) }
        ensures left { IfOk result (λ e. e.left ≡ None) }
    {
        Ok(Evidence {
            nodes,
            arcs,
            kind: None,
            flows: Vec::with_capacity(alloc, arcs)?,
            potentials: Vec::with_capacity(alloc, nodes)?,
            side: Vec::with_capacity(alloc, nodes)?,
            walk: Vec::with_capacity(alloc, nodes)?,
        })
    }

    /// Copies what was found, in place of what was kept before.
    pub(crate) fn keep(&mut self, kind: Kind, work: &Work)
        requires nodes { work.now.nodes ≡ self.old.nodes }
        requires arcs { work.now.arcs ≡ self.old.arcs }
        ensures nodes { self.new.nodes ≡ self.old.nodes }
        ensures arcs { self.new.arcs ≡ self.old.arcs }
        ensures left { self.new.left ≡ Some (left_in kind work.now) }
    {
        put(&mut self.flows, work.flows());
        put(&mut self.potentials, work.potentials());
        work.put_marks(&mut self.side);
        work.put_walk(&mut self.walk);
        self.kind = Some(kind);
    }

    /// The certificate with its numbers.
    pub(crate) fn certificate(self, g: &Grounded) -> Certificate
        requires left { IsLeftValid g.now.network self.left }
        ensures valid { IsValid g.now.network (shown result) }
        ensures parts { self.left ≡ Some (bare (shown result)) }
    {
        match self.kind {
            Some(Kind::Optimal) => {
                pair_of(g, Flows::of_vec(self.flows), Flows::of_vec(self.potentials))
            }
            Some(Kind::Cut) => cut_of(g, Marks::of_vec(self.side)),
            Some(Kind::Circuit) => {
                circuit_of(g, Flows::of_vec(self.flows), Walk::of_vec(self.walk))
            }
            None => unreachable!(),
        }
    }

    /// The same from copies.
    pub(crate) fn copy(&self, alloc: Global, g: &Grounded) -> Result<Certificate, AllocError>
        requires left { IsLeftValid g.now.network self.now.left }
        ensures valid { IfOk result (λ c. IsValid g.now.network (shown c)) }
        ensures parts { IfOk result (λ c. self.now.left ≡ Some (bare (shown c))) }
    {
        match self.kind {
            Some(Kind::Optimal) => {
                let flows = Flows::of_vec(self.flows.as_slice().to_vec(alloc)?);
                let potentials = Flows::of_vec(self.potentials.as_slice().to_vec(alloc)?);
                Ok(pair_of(g, flows, potentials))
            }
            Some(Kind::Cut) => {
                let side = Marks::of_vec(self.side.as_slice().to_vec(alloc)?);
                Ok(cut_of(g, side))
            }
            Some(Kind::Circuit) => {
                let flows = Flows::of_vec(self.flows.as_slice().to_vec(alloc)?);
                let walk = Walk::of_vec(self.walk.as_slice().to_vec(alloc)?);
                Ok(circuit_of(g, flows, walk))
            }
            None => unreachable!(),
        }
    }
}

/// Puts these items in the place of a list's, which has room for them.
fn put<T: Copy>(list: &mut Vec<T>, items: &[T])
    requires room { length items.now ≤ vec_capacity list.old }
    ensures items { list.new.items ≡ items.now }
    ensures capacity { vec_capacity list.new ≡ vec_capacity list.old }
{
    list.clear();
    for item in items {
        list.push_reserved(*item);
    }
}
