// A whole solve in room that is taken before it begins: after that nothing takes memory, and the answer always comes.
ghost use Rattle.std.specs.Prelude.{◌≡◌, ◌+◌, ◌*◌, ◌≤◌, length, map, None, Some, IfOk};
ghost use Rattle.std.specs.List.{All};
ghost use Rattle.theory.specs.Certificate.{IsValid, bare};
ghost use Rattle.theory.specs.Limits.{level_most};
ghost use Rattle.theory.specs.ReadingBound.{reading_bound, reading_unit};
ghost use Rattle.net_incidence.specs.WithoutBases.{without_bases, IsPassable};
ghost use Rattle.cert_text.specs.Shown.{shown};
ghost use Rattle.kilter_solver.specs.Left.{IsLeft, IsLeftValid, IsKindFor};

use crate::evidence::Evidence;
use crate::judging::judge;
use crate::kind::Kind;
use cert_text::Certificate;
use ground_net::Grounded;
use mono_curve::{Monotone, Steps};
use net_incidence::Net;
use painted_search::Work;
use quick_start::{Proposal, Sketch, fuel_of};
use std::alloc::{AllocError, Global};
use std::marker::Model;
use std::sync::ledger::Ledger;

/// The room of a whole solve: that of the draw, of the passes and of a certificate of each kind. And the evidence that the last
/// solve in it left.
#[derive(Drop)]
pub struct Prepared {
    sketch: Sketch,
    work: Work,
    evidence: Evidence,
    ghost same_nodes: { work.nodes ≡ evidence.nodes },
    ghost same_arcs: { work.arcs ≡ evidence.arcs },
}

impl Model for Prepared {
    ghost use Rattle.kilter_solver.specs.Left.{Preparation};

    ghost Value = { Preparation };

    ghost view = { λ prepared. prepared.evidence };
}

/// Takes all room that a solve of the network needs.
pub fn prepare(alloc: Global, g: &Grounded) -> Result<Prepared, AllocError>
    ensures nodes { IfOk result (λ prepared. prepared.nodes ≡ g.now.network.nodes) }
    ensures arcs { IfOk result (λ prepared. prepared.arcs ≡ length g.now.network.arcs) }
    ensures left { IfOk result (λ prepared. prepared.left ≡ None) }
{
    let (nodes, arcs) = (g.net().nodes(), g.net().arcs());
    Ok(Prepared {
        sketch: Sketch::take(alloc, nodes, arcs)?,
        work: Work::take(alloc, nodes, arcs)?,
        evidence: Evidence::take(alloc, nodes, arcs)?,
    })
}

/// Solves the net with these curves. A network simplex that nothing believes draws a pair or a cut, and a test decides; what the test
/// refuses is forgotten, and the passes find the answer.
pub fn solve_in<C: Monotone, L: Ledger>(
    net: &Net,
    curves: &[C],
    prepared: &mut Prepared,
    steps: &mut Steps<L>,
) -> Kind
    requires passable { IsPassable net.now (length curves.now) }
    requires light { All (λ c. C.weight c ≡ 1) curves.now }
    requires nodes { prepared.old.nodes ≡ net.now.nodes }
    requires arcs { prepared.old.arcs ≡ length net.now.arcs }
    ensures left { IsLeft (without_bases net.now (map C.items curves.now)) result prepared.new.left }
    ensures kind { IsKindFor (without_bases net.now (map C.items curves.now)) result }
    ensures nodes { prepared.new.nodes ≡ prepared.old.nodes }
    ensures arcs { prepared.new.arcs ≡ prepared.old.arcs }
    ensures no_fewer { steps.old ≤ steps.new }
    ensures count { steps.new ≤ steps.old + reading_bound net.now.nodes (length net.now.arcs) level_most }
{
    let drawn = prepared
        .sketch
        .draw(net, curves, fuel_of(net), &mut prepared.work, steps);
    prepared.settle(net, curves, drawn, steps)
}

/// The same once more, after the change of a curve. It comes sooner, since the draw goes on from the flows and potentials that
/// the last solve left in the room. Whatever they are, the answer is that of a solve: what is drawn is tested as ever.
pub fn resolve_in<C: Monotone, L: Ledger>(
    net: &Net,
    curves: &[C],
    prepared: &mut Prepared,
    steps: &mut Steps<L>,
) -> Kind
    requires passable { IsPassable net.now (length curves.now) }
    requires light { All (λ c. C.weight c ≡ 1) curves.now }
    requires nodes { prepared.old.nodes ≡ net.now.nodes }
    requires arcs { prepared.old.arcs ≡ length net.now.arcs }
    ensures left { IsLeft (without_bases net.now (map C.items curves.now)) result prepared.new.left }
    ensures kind { IsKindFor (without_bases net.now (map C.items curves.now)) result }
    ensures nodes { prepared.new.nodes ≡ prepared.old.nodes }
    ensures arcs { prepared.new.arcs ≡ prepared.old.arcs }
    ensures no_fewer { steps.old ≤ steps.new }
    ensures count { steps.new ≤ steps.old + reading_bound net.now.nodes (length net.now.arcs) level_most }
{
    let redrawn = prepared
        .sketch
        .redraw(net, curves, fuel_of(net), &mut prepared.work, steps);
    prepared.settle(net, curves, redrawn, steps)
}

impl Prepared {
    /// What was drawn, or what the passes find, becomes the evidence.
    fn settle<C: Monotone, L: Ledger>(
        &mut self,
        net: &Net,
        curves: &[C],
        drawn: Proposal,
        steps: &mut Steps<L>,
    ) -> Kind
        requires passable { IsPassable net.now (length curves.now) }
        requires light { All (λ c. C.weight c ≡ 1) curves.now }
        requires nodes { self.old.nodes ≡ net.now.nodes }
        requires arcs { self.old.arcs ≡ length net.now.arcs }
        ensures left { IsLeft (without_bases net.now (map C.items curves.now)) result self.new.left }
        ensures kind { IsKindFor (without_bases net.now (map C.items curves.now)) result }
        ensures nodes { self.new.nodes ≡ self.old.nodes }
        ensures arcs { self.new.arcs ≡ self.old.arcs }
        ensures no_fewer { steps.old ≤ steps.new }
        ensures count { steps.new ≤ steps.old + length net.now.arcs
            + (6 * reading_unit net.now.nodes (length net.now.arcs) level_most + net.now.nodes * length net.now.arcs) }
    {
        let kind = judge(net, curves, drawn, &mut self.work, steps);
        self.evidence.keep(kind, &self.work);
        kind
    }

    /// The certificate of what was solved, with its numbers for this network. It takes no memory.
    pub fn certificate(self, g: &Grounded) -> Certificate
        requires left { IsLeftValid g.now.network self.left }
        ensures valid { IsValid g.now.network (shown result) }
        ensures parts { self.left ≡ Some (bare (shown result)) }
    {
        self.evidence.certificate(g)
    }

    /// A copy of that certificate. The room stays for a further solve.
    pub fn copy_certificate(&self, alloc: Global, g: &Grounded) -> Result<Certificate, AllocError>
        requires left { IsLeftValid g.now.network self.now.left }
        ensures valid { IfOk result (λ c. IsValid g.now.network (shown c)) }
        ensures parts { IfOk result (λ c. self.now.left ≡ Some (bare (shown c))) }
    {
        self.evidence.copy(alloc, g)
    }
}
