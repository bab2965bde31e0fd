// Whole solves: one, or many in the same room.
ghost use Rattle.std.specs.Prelude.{◌≡◌, ◌+◌, ◌≤◌, length, Some, IfOk};
ghost use Rattle.theory.specs.Certificate.{IsValid, bare};
ghost use Rattle.theory.specs.CertificateLaws.{Says};
ghost use Rattle.theory.specs.Limits.{level_most};
ghost use Rattle.theory.specs.ReadingBound.{reading_bound};
ghost use Rattle.cert_text.specs.Shown.{shown};
ghost use Rattle.kilter_solver.specs.Kind.{IsRightKind};
ghost use Rattle.kilter_solver.specs.Left.{IsLeftValid};

use crate::prepared::{Prepared, prepare, resolve_in, solve_in};
use cert_text::Certificate;
use ground_net::Grounded;
use mono_curve::Steps;
use std::alloc::{AllocError, Global};
use std::sync::ledger::Ledger;

/// The certificate of the network: of its one right kind. All room is taken before the first reading, and that of the certificate with it.
pub fn solve<L: Ledger>(
    alloc: Global,
    g: &Grounded,
    steps: &mut Steps<L>,
) -> Result<Certificate, AllocError>
    ensures valid { IfOk result (λ c. IsValid g.now.network (shown c)) }
    ensures says { IfOk result (λ c. Says g.now.network (shown c)) }
    ensures kind { IfOk result (λ c. IsRightKind g.now.network (shown c)) }
    ensures no_fewer { steps.old ≤ steps.new }
    ensures count { steps.new ≤ steps.old + reading_bound g.now.network.nodes (length g.now.network.arcs) level_most }
{
    let mut prepared = prepare(alloc, g)?;
    let _kind = solve_in(g.net(), g.curves(), &mut prepared, steps);
    Ok(prepared.certificate(g))
}

/// The same in room that the caller keeps: a copy of the certificate is all that takes memory.
pub fn solve_kept<L: Ledger>(
    alloc: Global,
    g: &Grounded,
    prepared: &mut Prepared,
    steps: &mut Steps<L>,
) -> Result<Certificate, AllocError>
    requires nodes { prepared.old.nodes ≡ g.now.network.nodes }
    requires arcs { prepared.old.arcs ≡ length g.now.network.arcs }
    ensures valid { IfOk result (λ c. IsValid g.now.network (shown c)) }
    ensures says { IfOk result (λ c. Says g.now.network (shown c)) }
    ensures kind { IfOk result (λ c. IsRightKind g.now.network (shown c)) }
    ensures left { IsLeftValid g.now.network prepared.new.left }
    ensures copied { IfOk result (λ c. prepared.new.left ≡ Some (bare (shown c))) }
    ensures nodes { prepared.new.nodes ≡ prepared.old.nodes }
    ensures arcs { prepared.new.arcs ≡ prepared.old.arcs }
    ensures no_fewer { steps.old ≤ steps.new }
    ensures count { steps.new ≤ steps.old + reading_bound g.now.network.nodes (length g.now.network.arcs) level_most }
{
    let _kind = solve_in(g.net(), g.curves(), prepared, steps);
    prepared.copy_certificate(alloc, g)
}

/// The same again, from what the last solve left in the room: after the change of a curve, say, it comes sooner.
pub fn resolve_kept<L: Ledger>(
    alloc: Global,
    g: &Grounded,
    prepared: &mut Prepared,
    steps: &mut Steps<L>,
) -> Result<Certificate, AllocError>
    requires nodes { prepared.old.nodes ≡ g.now.network.nodes }
    requires arcs { prepared.old.arcs ≡ length g.now.network.arcs }
    ensures valid { IfOk result (λ c. IsValid g.now.network (shown c)) }
    ensures says { IfOk result (λ c. Says g.now.network (shown c)) }
    ensures kind { IfOk result (λ c. IsRightKind g.now.network (shown c)) }
    ensures left { IsLeftValid g.now.network prepared.new.left }
    ensures copied { IfOk result (λ c. prepared.new.left ≡ Some (bare (shown c))) }
    ensures nodes { prepared.new.nodes ≡ prepared.old.nodes }
    ensures arcs { prepared.new.arcs ≡ prepared.old.arcs }
    ensures no_fewer { steps.old ≤ steps.new }
    ensures count { steps.new ≤ steps.old + reading_bound g.now.network.nodes (length g.now.network.arcs) level_most }
{
    let _kind = resolve_in(g.net(), g.curves(), prepared, steps);
    prepared.copy_certificate(alloc, g)
}
