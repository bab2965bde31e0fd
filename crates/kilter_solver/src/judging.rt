// What is found in a room: what was drawn, where a test decides for it, and else what the passes find. They ask: is there a flow, is
// there a potential, and then a pair of both that is optimal.
ghost use Rattle.std.specs.Prelude.{◌≡◌, ◌+◌, ◌*◌, ◌≤◌, length, map};
ghost use Rattle.std.specs.List.{All};
ghost use Rattle.theory.specs.Certificate.{IsValidBare};
ghost use Rattle.theory.specs.Limits.{level_most};
ghost use Rattle.theory.specs.ReadingBound.{reading_unit};
ghost use Rattle.net_incidence.specs.WithoutBases.{without_bases, IsPassable};
ghost use Rattle.painted_search.specs.Fits.{Fits};
ghost use Rattle.kilter_solver.specs.Left.{left_in};

use crate::balancing::{Balanced, balance};
use crate::cut_test::is_negative_cut;
use crate::kilter_test::is_in_kilter;
use crate::kind::Kind;
use feasible_flow::{FlowAns, feasible_flow};
use feasible_tension::{TensionAns, feasible_tension};
use mono_curve::{Monotone, Steps};
use net_incidence::Net;
use painted_search::Work;
use quick_start::Proposal;
use std::sync::ledger::Ledger;

/// The kind of what the room then holds: what was drawn, where it passes its test, and else what the passes find.
pub(crate) fn judge<C: Monotone, L: Ledger>(
    net: &Net,
    curves: &[C],
    drawn: Proposal,
    work: &mut Work,
    steps: &mut Steps<L>,
) -> Kind
    requires passable { IsPassable net.now (length curves.now) }
    requires light { All (λ c. C.weight c ≡ 1) curves.now }
    requires fits { Fits net.now work.old }
    ensures found { IsValidBare (without_bases net.now (map C.items curves.now)) (left_in result work.new) }
    ensures fits { Fits net.now work.new }
    ensures no_fewer { steps.old ≤ steps.new }
    ensures count { steps.new ≤ steps.old + length net.now.arcs
        + (6 * reading_unit net.now.nodes (length net.now.arcs) level_most + net.now.nodes * length net.now.arcs) }
{
    match drawn {
        Proposal::Pair if is_in_kilter(net, curves, work, steps) => Kind::Optimal,
        Proposal::Cut if is_negative_cut(net, curves, work, steps) => Kind::Cut,
        _ => pass(net, curves, work, steps),
    }
}

/// The passes alone, from nothing that was drawn.
pub(crate) fn pass<C: Monotone, L: Ledger>(
    net: &Net,
    curves: &[C],
    work: &mut Work,
    steps: &mut Steps<L>,
) -> Kind
    requires passable { IsPassable net.now (length curves.now) }
    requires light { All (λ c. C.weight c ≡ 1) curves.now }
    requires fits { Fits net.now work.old }
    ensures found { IsValidBare (without_bases net.now (map C.items curves.now)) (left_in result work.new) }
    ensures fits { Fits net.now work.new }
    ensures no_fewer { steps.old ≤ steps.new }
    ensures count { steps.new ≤ steps.old + 6 * reading_unit net.now.nodes (length net.now.arcs) level_most
        + net.now.nodes * length net.now.arcs }
{
    match feasible_flow(net, curves, work, steps) {
        FlowAns::Flow => {}
        FlowAns::Cut => return Kind::Cut,
    }
    match feasible_tension(net, curves, work, steps) {
        TensionAns::Potential => {}
        TensionAns::Circuit => return Kind::Circuit,
    }
    match balance(net, curves, work, steps) {
        Balanced::InKilter => Kind::Optimal,
        Balanced::Cut => Kind::Cut,
    }
}
