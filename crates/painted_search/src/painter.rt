// Painters: who says how each arc may be passed.
ghost use Rattle.std.specs.Prelude.{◌≡◌, ℕ, ◌+◌, ◌<◌, ◌≤◌, ℤ, List};
ghost use Rattle.theory.specs.declared.colour.Colour.{Colour as Shade};

use crate::work::Work;
use mono_curve::Steps;
use std::sync::ledger::Ledger;
use theory::{ArcId, Colour};

/// A colour for each arc, by the flows and potentials of a room. A painter that reads curves counts its readings.
pub trait Painter {
    /// What a painter needs of the flows and potentials.
    ghost ready: { Self → List ℤ → List ℤ → Type 0 };

    ghost paint: { Self → List ℤ → List ℤ → ℕ → Shade };

    /// The most readings for one colour.
    ghost weight: { Self → ℕ };

    fn colour<L: Ledger>(&self, work: &Work, arc: ArcId, steps: &mut Steps<L>) -> Colour
        requires ready { ready self.now work.now.flows work.now.potentials }
        requires there { arc.0 < work.now.arcs }
        ensures colour { result ≡ paint self.now work.now.flows work.now.potentials arc.0 }
        ensures no_fewer { steps.old ≤ steps.new }
        ensures count { steps.new ≤ steps.old + weight self.now };
}
