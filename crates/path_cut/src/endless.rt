// Where domains have no end: how they paint a net.
ghost use Rattle.std.specs.Prelude.{◌≡◌, length, map};
ghost use Rattle.std.specs.List.{All};
ghost use Rattle.path_cut.specs.Paintings.{but, endless};

use feasible_flow::shade;
use mono_curve::{Monotone, Steps};
use net_incidence::ArcId;
use painted_search::{Colour, Painter, Work};
use std::sync::ledger::Ledger;
use theory::pricing::is_finite_end;

/// The curves of a net's arcs, read for the ends that their domains lack. As a painter it lets a flow move where it could do so
/// without end, over other arcs than the last.
#[derive(Drop)]
pub(crate) struct Endless<'a, C> {
    pub(crate) curves: &'a [C],
    pub(crate) last: ArcId,
}

impl<'a, C: Monotone> Painter for Endless<'a, C> {
    ghost ready = { λ s flows potentials. (length flows ≡ length s.curves.now) × All (λ c. C.weight c ≡ 1) s.curves.now };

    ghost paint = { λ s flows potentials. but s.last.0 (endless (map C.items s.curves.now)) };

    ghost weight = { λ s. 1 };

    fn colour<L: Ledger>(&self, work: &Work, arc: ArcId, steps: &mut Steps<L>) -> Colour {
        if arc == self.last {
            return Colour::Red;
        }
        let _arcs = work.arcs();
        let (low, high) = self.curves[arc.0 as usize].domain(steps);
        shade(!is_finite_end(high), !is_finite_end(low))
    }
}
