// What is left of a flow, and a walk along it.
//
// The walk goes on along what is left until it meets one of its nodes again; the circuit from there on is taken off, and the
// walk goes on from where it met it. A step without flow along it never gets one again, so each node's steps are looked
// through once for all pieces together, and a piece costs as many steps as it has.
ghost use Rattle.std.specs.Prelude.{◌≡◌, ℕ, ◌+◌, ◌<◌, ◌≤◌, pos, ◌<ℤ◌, [], ◌∷◌, ◌++◌, replicate, None, length, take, IfOk, IfSome, IfNone, OnOk};
ghost use Rattle.theory.specs.Network.{«at»};
ghost use Rattle.theory.specs.Conserved.{IsConserved};
ghost use Rattle.theory.specs.Circuit.{step, begin_of, end_of, WalkIsThere};
ghost use Rattle.theory.specs.Certificate.{AreNumbers};
ghost use Rattle.net_incidence.specs.Graph.{bare};
ghost use Rattle.net_incidence.specs.Incidence.{incident_steps};
ghost use Rattle.net_incidence.specs.FlowAlong.{flow_along};
ghost use Rattle.flow_pieces.specs.Pieces.{left_by, IsPiece};

use crate::circuits::{flow_along, piece_round, take_off};
use crate::list::Piece;
use net_incidence::Net;
use std::alloc::{AllocError, Global};
use theory::{ArcId, NodeId, Step};

#[derive(Drop)]
pub(crate) struct Walker {
    rest: Vec<i64>,
    walk: Vec<Step>,
    // for each node the place of the step that begins there
    places: Vec<Option<usize>>,
    // for each node how many of its steps are known to have nothing left along them
    looked: Vec<usize>,
}

impl Walker {
    ghost use Rattle.flow_pieces.specs.Course.{course, IsCourse, EndsAt, place_at, ArePlaces, AreDry};
    ghost use Rattle.flow_pieces.specs.Splitting.{piece_of};

    /// The whole flow is left, and the walk has no step.
    pub(crate) fn new(alloc: Global, net: &Net, x: &[i64]) -> Result<Walker, AllocError>
        requires numbers { AreNumbers (length net.now.arcs) x.now }
        requires conserved { IsConserved (bare net.now) («at» x.now) }
        ensures rest { IfOk result (λ walker. walker.rest.items ≡ x.now) }
        ensures course { IfOk result (λ walker. IsCourse net.now (course walker)) }
    {
        Ok(Walker {
            rest: Vec::from_slice(alloc, x)?,
            walk: Vec::with_capacity(alloc, net.nodes())?,
            places: vec![in alloc; None; net.nodes()]?,
            looked: vec![in alloc; 0usize; net.nodes()]?,
        })
    }

    /// The step over the arc along what is left of its flow.
    pub(crate) fn step_over(&self, arc: ArcId) -> Option<Step>
        requires { arc.0 < length self.now.rest.items }
        ensures none { IfNone result («at» self.now.rest.items arc.0 ≡ pos 0) }
        ensures arc { IfSome result (λ s. s.arc ≡ arc) }
        ensures along { IfSome result (λ s. pos 0 <ℤ flow_along («at» self.now.rest.items) s) }
    {
        let flow = self.rest[arc.0 as usize];
        if flow == 0 {
            return None;
        }
        Some(Step {
            arc,
            forward: flow > 0,
        })
    }

    /// Goes on until the walk meets itself, from the step if it has none, and takes off the circuit.
    pub(crate) fn next_piece(
        &mut self,
        alloc: Global,
        net: &Net,
        step: Step,
    ) -> Result<Piece, AllocError>
        requires course { IsCourse net.now (course self.old) }
        requires there { step.arc.0 < length net.now.arcs }
        requires along { pos 0 <ℤ flow_along («at» self.old.rest.items) step }
        ensures course { OnOk result (IsCourse net.now (course self.new)) }
        ensures piece { IfOk result (λ p. IsPiece (bare net.now) («at» self.old.rest.items) (piece_of p)) }
        ensures left { IfOk result (λ p. (j : ℕ) → «at» self.new.rest.items j ≡ left_by («at» self.old.rest.items) (piece_of p) j) }
    {
        self.begin(net, step)?;
        let place = self.go_on(net)?;
        self.close(alloc, net, place)
    }

    /// Walks the step if the walk has none.
    fn begin(&mut self, net: &Net, step: Step) -> Result<(), AllocError>
        requires course { IsCourse net.now (course self.old) }
        requires there { step.arc.0 < length net.now.arcs }
        requires along { pos 0 <ℤ flow_along («at» self.old.rest.items) step }
        ensures course { OnOk result (IsCourse net.now (course self.new)) }
        ensures some { OnOk result (0 < length self.new.walk.items) }
        ensures rest { self.new.rest.items ≡ self.old.rest.items }
    {
        if self.walk.is_empty() {
            self.push(net, step)
        } else {
            Ok(())
        }
    }

    /// Walks the step.
    fn push(&mut self, net: &Net, step: Step) -> Result<(), AllocError>
        requires course { IsCourse net.now (course self.old) }
        requires there { step.arc.0 < length net.now.arcs }
        requires along { pos 0 <ℤ flow_along («at» self.old.rest.items) step }
        requires from_end { EndsAt (bare net.now) self.old.walk.items (begin_of (bare net.now) step) }
        requires new { place_at self.old.places.items (begin_of (bare net.now) step) ≡ None }
        ensures course { OnOk result (IsCourse net.now (course self.new)) }
        ensures walk { OnOk result (self.new.walk.items ≡ self.old.walk.items ++ step ∷ []) }
        ensures rest { self.new.rest.items ≡ self.old.rest.items }
    {
        let place = self.walk.len();
        self.walk.push(step)?;
        self.places[net.begin(step).0 as usize] = Some(place);
        Ok(())
    }

    /// Walks on until the walk ends where one of its steps begins, and gives the place of that step.
    fn go_on(&mut self, net: &Net) -> Result<usize, AllocError>
        requires course { IsCourse net.now (course self.old) }
        requires some { 0 < length self.old.walk.items }
        ensures course { OnOk result (IsCourse net.now (course self.new)) }
        ensures in_walk { IfOk result (λ place. place < length self.new.walk.items) }
        ensures meets { IfOk result (λ place. EndsAt (bare net.now) self.new.walk.items
            (begin_of (bare net.now) (step self.new.walk.items place))) }
        ensures rest { self.new.rest.items ≡ self.old.rest.items }
    {
        loop {
            let node = self.end(net);
            if let Some(place) = self.places[node.0 as usize] {
                return Ok(place);
            }
            let step = self.next_step(net, node);
            self.push(net, step)?;
        }
    }

    /// Where the walk ends.
    fn end(&self, net: &Net) -> NodeId
        requires there { WalkIsThere (bare net.now) self.now.walk.items }
        requires some { 0 < length self.now.walk.items }
        ensures ends { EndsAt (bare net.now) self.now.walk.items result.0 }
        ensures node { result.0 < net.now.nodes }
    {
        net.end(self.walk[self.walk.len() - 1])
    }

    /// A step at the node where the walk ends that has flow left along it: there is one, since the walk brings some.
    fn next_step(&mut self, net: &Net, node: NodeId) -> Step
        requires course { IsCourse net.now (course self.old) }
        requires some { 0 < length self.old.walk.items }
        requires node { node.0 < net.now.nodes }
        requires ends { EndsAt (bare net.now) self.old.walk.items node.0 }
        ensures course { IsCourse net.now (course self.new) }
        ensures walk { self.new.walk.items ≡ self.old.walk.items }
        ensures places { self.new.places.items ≡ self.old.places.items }
        ensures rest { self.new.rest.items ≡ self.old.rest.items }
        ensures there { result.arc.0 < length net.now.arcs }
        ensures begin { begin_of (bare net.now) result ≡ node.0 }
        ensures along { pos 0 <ℤ flow_along («at» self.old.rest.items) result }
    {
        let k = self.next_place(net, node);
        self.looked[node.0 as usize] = k;
        net.incident(node, k)
    }

    /// Its place among the steps at the node.
    fn next_place(&self, net: &Net, node: NodeId) -> usize
        requires course { IsCourse net.now (course self.now) }
        requires some { 0 < length self.now.walk.items }
        requires node { node.0 < net.now.nodes }
        requires ends { EndsAt (bare net.now) self.now.walk.items node.0 }
        ensures in_list { result < length (incident_steps net.now.arcs node.0) }
        ensures along { pos 0 <ℤ flow_along («at» self.now.rest.items) (step (incident_steps net.now.arcs node.0) result) }
        ensures dry { AreDry («at» self.now.rest.items) (incident_steps net.now.arcs node.0) result }
    {
        let steps = net.steps(node);
        for k in self.looked[node.0 as usize]..steps.len() {
            if flow_along(self.rest.as_slice(), steps[k]) > 0 {
                return k;
            }
        }
        unreachable!()
    }

    /// Takes off the circuit from the place on.
    fn close(&mut self, alloc: Global, net: &Net, place: usize) -> Result<Piece, AllocError>
        requires course { IsCourse net.now (course self.old) }
        requires in_walk { place < length self.old.walk.items }
        requires meets { EndsAt (bare net.now) self.old.walk.items (begin_of (bare net.now) (step self.old.walk.items place)) }
        ensures course { OnOk result (IsCourse net.now (course self.new)) }
        ensures piece { IfOk result (λ p. IsPiece (bare net.now) («at» self.old.rest.items) (piece_of p)) }
        ensures left { IfOk result (λ p. (j : ℕ) → «at» self.new.rest.items j ≡ left_by («at» self.old.rest.items) (piece_of p) j) }
    {
        let circuit = &self.walk[place..];
        let piece = piece_round(alloc, net, self.rest.as_slice(), circuit)?;
        take_off(&mut self.rest, circuit, piece.weight);
        self.cut(net, place);
        Ok(piece)
    }

    /// Leaves the steps from the place on.
    fn cut(&mut self, net: &Net, place: usize)
        requires there { WalkIsThere (bare net.now) self.old.walk.items }
        requires placed { ArePlaces (bare net.now) self.old.walk.items self.old.places.items }
        requires in_walk { place ≤ length self.old.walk.items }
        ensures placed { ArePlaces (bare net.now) self.new.walk.items self.new.places.items }
        ensures walk { self.new.walk.items ≡ take place self.old.walk.items }
        ensures rest { self.new.rest.items ≡ self.old.rest.items }
        ensures looked { self.new.looked.items ≡ self.old.looked.items }
    {
        for k in place..self.walk.len() {
            let node = net.begin(self.walk[k]);
            self.places[node.0 as usize] = None;
        }
        self.walk.truncate(place);
    }
}
