// The kept solution of a network whose curves change one after the other.
ghost use Rattle.std.specs.Prelude.{◌≡◌, ◌+◌, ◌*◌, ◌<◌, ◌≤◌, length, Ok, IfOk, OnOk, OnErr};
ghost use Rattle.theory.specs.Certificate.{IsValid};
ghost use Rattle.theory.specs.Limits.{level_most};
ghost use Rattle.theory.specs.ReadingBound.{reading_bound};
ghost use Rattle.ground_net.specs.Ground.{replaced};
ghost use Rattle.cert_text.specs.Shown.{shown};
ghost use Rattle.warm_solve.specs.Renumbered.{renumbered, with_number, Stays};

use crate::anew::number_anew;
use crate::kind::Kind;
use cert_text::Certificate;
use ground_net::Grounded;
use kilter_solver::{Prepared, prepare, resolve_kept, solve_kept};
use mono_curve::{Curve, Steps};
use net_incidence::ArcId;
use std::alloc::{AllocError, Global};
use std::marker::Model;
use std::sync::ledger::Ledger;

/// A network with a certificate that is valid for it. A change of a curve keeps the certificate where it stays: that looks at
/// the changed arc alone. Where it doesn't stay the network is solved anew, and what the last solve found is where the next one
/// begins.
#[derive(Drop)]
pub struct Warm {
    net: Grounded,
    kept: Certificate,
    room: Room,
}

impl Model for Warm {
    ghost use Rattle.cert_text.specs.Shown.{shown};
    ghost use Rattle.warm_solve.specs.Kept.{Kept, IsKept};

    ghost Value = { Kept };

    ghost view = { λ warm. record { network = warm.net.network; kept = shown warm.kept } };

    ghost invariant = { λ warm. IsKept warm.net.network (shown warm.kept) warm.room.prepared };
}

impl Warm {
    ghost use Rattle.theory.specs.Limits.{IsWithin, number_most, list_most};
    ghost use Rattle.kilter_solver.specs.Kind.{IsRightKind};
    ghost use Rattle.warm_solve.specs.Kinds.{kind_of};

    /// Solves the network and keeps both, and all room of the solve: a change takes memory for a certificate alone. After want of
    /// memory the network is gone.
    pub fn start<L: Ledger>(
        alloc: Global,
        g: Grounded,
        steps: &mut Steps<L>,
    ) -> Result<Warm, AllocError>
        ensures network { IfOk result (λ warm. warm.network ≡ g.network) }
        ensures valid { IfOk result (λ warm. IsValid g.network warm.kept) }
        ensures kind { IfOk result (λ warm. IsRightKind g.network warm.kept) }
        ensures no_fewer { steps.old ≤ steps.new }
        ensures count { steps.new ≤ steps.old + reading_bound g.network.nodes (length g.network.arcs) level_most }
    {
        let mut room = Room::take(alloc, &g)?;
        let kept = room.solve(&g, steps)?;
        Ok(Warm { net: g, kept, room })
    }

    /// Another curve for the arc, and a certificate of the network with it.
    pub fn change<L: Ledger>(
        &mut self,
        arc: ArcId,
        curve: Curve,
        steps: &mut Steps<L>,
    ) -> Result<Kind, AllocError>
        requires there { arc.0 < length self.old.network.arcs }
        requires short { length curve.listing.items ≤ list_most }
        requires base { IsWithin number_most curve.listing.base }
        ensures network { OnOk result (self.new.network ≡ replaced self.old.network arc.0 curve.listing) }
        ensures valid { OnOk result (IsValid (replaced self.old.network arc.0 curve.listing) self.new.kept) }
        ensures right_kind { OnOk result (IsRightKind (replaced self.old.network arc.0 curve.listing) self.new.kept) }
        ensures kind { IfOk result (λ kind. kind ≡ kind_of self.new.kept) }
        ensures network_on_err { OnErr result (self.new.network ≡ self.old.network) }
        ensures kept_on_err { OnErr result (self.new.kept ≡ self.old.kept) }
        ensures stays { Stays (replaced self.old.network arc.0 curve.listing) self.old.kept → result ≡ Ok (kind_of self.old.kept) }
        ensures stays_renumbered { Stays (replaced self.old.network arc.0 curve.listing) self.old.kept
            → self.new.kept ≡ renumbered (replaced self.old.network arc.0 curve.listing) self.old.kept }
        ensures stays_unread { Stays (replaced self.old.network arc.0 curve.listing) self.old.kept → steps.new ≡ steps.old }
        ensures no_fewer { steps.old ≤ steps.new }
        ensures count { steps.new ≤ steps.old + 2 * reading_bound self.old.network.nodes (length self.old.network.arcs) level_most }
    {
        let before = self.net.replace_curve(arc, curve);
        let renewed = renew(
            &mut self.room,
            &self.net,
            arc,
            &before,
            &mut self.kept,
            steps,
        );
        match renewed {
            Ok(()) => Ok(Kind::of(&self.kept)),
            Err(AllocError) => {
                let _refused = self.net.replace_curve(arc, before);
                Err(AllocError)
            }
        }
    }

    pub fn network(&self) -> &Grounded
        ensures { result.now.network ≡ self.now.network }
    {
        &self.net
    }

    /// The certificate of the network as it is.
    pub fn kept(&self) -> &Certificate
        ensures certificate { shown result.now ≡ self.now.kept }
        ensures valid { IsValid self.now.network (shown result.now) }
    {
        &self.kept
    }
}

/// The room of every solve, and where the memory of a certificate comes from.
#[derive(Drop)]
struct Room {
    alloc: Global,
    prepared: Prepared,
}

impl Room {
    ghost use Rattle.kilter_solver.specs.Kind.{IsRightKind};

    fn take(alloc: Global, g: &Grounded) -> Result<Room, AllocError>
        ensures nodes { IfOk result (λ room. room.prepared.nodes ≡ g.now.network.nodes) }
        ensures arcs { IfOk result (λ room. room.prepared.arcs ≡ length g.now.network.arcs) }
    {
        Ok(Room {
            alloc,
            prepared: prepare(alloc, g)?,
        })
    }

    fn solve<L: Ledger>(
        &mut self,
        g: &Grounded,
        steps: &mut Steps<L>,
    ) -> Result<Certificate, AllocError>
        requires nodes { self.old.prepared.nodes ≡ g.now.network.nodes }
        requires arcs { self.old.prepared.arcs ≡ length g.now.network.arcs }
        ensures valid { IfOk result (λ c. IsValid g.now.network (shown c)) }
        ensures kind { IfOk result (λ c. IsRightKind g.now.network (shown c)) }
        ensures nodes { self.new.prepared.nodes ≡ self.old.prepared.nodes }
        ensures arcs { self.new.prepared.arcs ≡ self.old.prepared.arcs }
        ensures no_fewer { steps.old ≤ steps.new }
        ensures count { steps.new ≤ steps.old + reading_bound g.now.network.nodes (length g.now.network.arcs) level_most }
    {
        solve_kept(self.alloc, g, &mut self.prepared, steps)
    }

    fn resolve<L: Ledger>(
        &mut self,
        g: &Grounded,
        steps: &mut Steps<L>,
    ) -> Result<Certificate, AllocError>
        requires nodes { self.old.prepared.nodes ≡ g.now.network.nodes }
        requires arcs { self.old.prepared.arcs ≡ length g.now.network.arcs }
        ensures valid { IfOk result (λ c. IsValid g.now.network (shown c)) }
        ensures kind { IfOk result (λ c. IsRightKind g.now.network (shown c)) }
        ensures nodes { self.new.prepared.nodes ≡ self.old.prepared.nodes }
        ensures arcs { self.new.prepared.arcs ≡ self.old.prepared.arcs }
        ensures no_fewer { steps.old ≤ steps.new }
        ensures count { steps.new ≤ steps.old + reading_bound g.now.network.nodes (length g.now.network.arcs) level_most }
    {
        resolve_kept(self.alloc, g, &mut self.prepared, steps)
    }
}

/// A certificate of the network, from one that was valid while the arc had the curve `before`.
fn renew<L: Ledger>(
    room: &mut Room,
    g: &Grounded,
    arc: ArcId,
    before: &Curve,
    kept: &mut Certificate,
    steps: &mut Steps<L>,
) -> Result<(), AllocError>
    requires there { arc.0 < length g.now.network.arcs }
    requires valid { IsValid (replaced g.now.network arc.0 before.now.listing) (shown kept.old) }
    requires nodes { room.old.prepared.nodes ≡ g.now.network.nodes }
    requires arcs { room.old.prepared.arcs ≡ length g.now.network.arcs }
    ensures nodes { room.new.prepared.nodes ≡ room.old.prepared.nodes }
    ensures arcs { room.new.prepared.arcs ≡ room.old.prepared.arcs }
    ensures valid { OnOk result (IsValid g.now.network (shown kept.new)) }
    ensures on_err { OnErr result (kept.new ≡ kept.old) }
    ensures stays { Stays g.now.network (shown kept.old) → result ≡ Ok tt }
    ensures renumbered { Stays g.now.network (shown kept.old) → shown kept.new ≡ renumbered g.now.network (shown kept.old) }
    ensures unread { Stays g.now.network (shown kept.old) → steps.new ≡ steps.old }
    ensures no_fewer { steps.old ≤ steps.new }
    ensures count { steps.new ≤ steps.old + reading_bound g.now.network.nodes (length g.now.network.arcs) level_most }
{
    if let Some(number) = number_anew(g, arc, before, kept) {
        renumber(kept, number);
        return Ok(());
    }
    *kept = room.resolve(g, steps)?;
    Ok(())
}

/// The number in the place of each of the certificate's.
fn renumber(kept: &mut Certificate, number: i128)
    ensures { shown kept.new ≡ with_number (shown kept.old) number }
{
    match kept {
        Certificate::Optimal { cost, .. } => *cost = number,
        Certificate::Cut { capacity, .. } => *capacity = number,
        Certificate::Circuit { span, .. } => *span = number,
    }
    if let Certificate::Optimal { value, .. } = kept {
        *value = number;
    }
}
