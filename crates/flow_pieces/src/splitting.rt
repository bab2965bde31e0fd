// A flow split into pieces.
ghost use Rattle.std.specs.Prelude.{◌≡◌, ◌↔◌, ℕ, ◌<◌, ◌≤◌, pos, length, Err, IfOk, IfSome, IfNone, OnOk};
ghost use Rattle.theory.specs.Sums.{Each};
ghost use Rattle.theory.specs.Network.{«at»};
ghost use Rattle.theory.specs.Conserved.{IsConserved};
ghost use Rattle.theory.specs.Certificate.{AreNumbers};
ghost use Rattle.net_incidence.specs.Graph.{bare};
ghost use Rattle.flow_pieces.specs.Pieces.{ArePieces};
ghost use Rattle.flow_pieces.specs.PiecesLaws.{AddUp, count_carrying, IsCircuitOfFlow};
ghost use Rattle.flow_pieces.specs.Unbalanced.{IsFirstUnbalanced};
ghost use Rattle.flow_pieces.specs.Course.{course, IsCourse};
ghost use Rattle.flow_pieces.specs.Splitting.{GoesOn, StaysEmpty};

use crate::list::PieceList;
use crate::walker::Walker;
use net_incidence::Net;
use std::alloc::{AllocError, Global};
use theory::{ArcId, NodeId};
use thiserror::Error;

/// Why a flow was not split.
#[derive(Debug, PartialEq, Drop, Error)]
pub enum PieceFault {
    /// The first node where what leaves is not what enters.
    #[error("a flow that is not conserved")]
    NotConserved(NodeId),
    #[error("out of memory")]
    NoMemory,
}

impl From<AllocError> for PieceFault {
    ghost use Rattle.flow_pieces.specs.declared.splitting.PieceFault.{PieceFault as Fault};

    ghost from_gives = { λ _ fault. fault ≡ Fault.NoMemory };

    fn from(_: AllocError) -> Self {
        PieceFault::NoMemory
    }
}

/// Splits a flow into circuits along it. The flow is tested before any memory is taken.
pub fn pieces(alloc: Global, net: &Net, x: &[i64]) -> Result<PieceList, PieceFault>
    requires { AreNumbers (length net.now.arcs) x.now }
    ensures pieces { IfOk result (ArePieces (bare net.now) («at» x.now)) }

    // so, as `sum_of_pieces` says of any pieces:
    ensures add_up { IfOk result (AddUp (bare net.now) («at» x.now)) }
    ensures few { IfOk result (λ ps. length ps ≤ count_carrying (length net.now.arcs) («at» x.now)) }
    ensures circuits { IfOk result (Each (IsCircuitOfFlow (bare net.now) («at» x.now))) }
    ensures conserved { OnOk result (IsConserved (bare net.now) («at» x.now)) }

    ensures not_conserved { (i : ℕ) → (result ≡ Err (PieceFault.NotConserved (record { 0 = i })))
        ↔ IsFirstUnbalanced (bare net.now) («at» x.now) i }
{
    if let Some(node) = first_unbalanced(net, x) {
        return Err(PieceFault::NotConserved(node));
    }
    let mut walker = Walker::new(alloc, net, x)?;
    let mut list = PieceList::new(alloc);
    for j in 0..net.arcs() as u32 {
        exhaust(alloc, net, ArcId(j), &mut walker, &mut list)?;
    }
    Ok(list)
}

/// The first node at which the flow isn't conserved.
fn first_unbalanced(net: &Net, x: &[i64]) -> Option<NodeId>
    requires { AreNumbers (length net.now.arcs) x.now }
    ensures some { IfSome result (λ node. IsFirstUnbalanced (bare net.now) («at» x.now) node.0) }
    ensures none { IfNone result (IsConserved (bare net.now) («at» x.now)) }
{
    for i in 0..net.nodes() as u32 {
        if net.divergence(x, NodeId(i)) != 0 {
            return Some(NodeId(i));
        }
    }
    None
}

/// Takes off pieces until the arc carries nothing.
fn exhaust(
    alloc: Global,
    net: &Net,
    arc: ArcId,
    walker: &mut Walker,
    list: &mut PieceList,
) -> Result<(), AllocError>
    requires course { IsCourse net.now (course walker.old) }
    requires there { arc.0 < length net.now.arcs }
    ensures course { OnOk result (IsCourse net.now (course walker.new)) }
    ensures goes_on { OnOk result (GoesOn (bare net.now) list.old («at» walker.old.rest.items) list.new («at» walker.new.rest.items)) }
    ensures stays_empty { OnOk result (StaysEmpty («at» walker.old.rest.items) («at» walker.new.rest.items)) }
    ensures empty { OnOk result («at» walker.new.rest.items arc.0 ≡ pos 0) }
{
    while let Some(step) = walker.step_over(arc) {
        let piece = walker.next_piece(alloc, net, step)?;
        list.push(piece)?;
    }
    Ok(())
}
