// The network with an arc back from a goal to a start.
ghost use Rattle.std.specs.Prelude.{◌≡◌, ◌≢◌, ◌+◌, ◌<◌, ◌≤◌, ◌^◌, [], ◌∷◌, ◌++◌, length, IfOk, OnOk};
ghost use Rattle.theory.specs.Grounded.{joining};
ghost use Rattle.net_incidence.specs.Graph.{network};
ghost use Rattle.ground_net.specs.Ground.{listings};
ghost use Rattle.path_cut.specs.Returned.{line, returned};

use mono_curve::{Curve, Ext};
use net_incidence::{ArcId, Net, NetFault, NodeId};
use std::alloc::{AllocError, Global};
use std::marker::Model;

/// A network whose last arc leads back from the goal to the start.
#[derive(Drop)]
pub struct Returned {
    net: Net,
    curves: Vec<Curve>,
}

impl Model for Returned {
    ghost use Rattle.theory.specs.Network.{Network};
    ghost use Rattle.net_incidence.specs.Graph.{network};
    ghost use Rattle.ground_net.specs.Ground.{listings};

    ghost Value = { Network };

    ghost view = { λ r. network r.net (listings r.curves.items) };
}

impl Returned {
    pub fn net(&self) -> &Net
        ensures { network result.now self.now.curves ≡ self.now }
    {
        &self.net
    }

    /// A curve for each arc.
    pub fn curves(&self) -> &[Curve]
        ensures { listings result.now ≡ self.now.curves }
    {
        self.curves.as_slice()
    }
}

/// The network with copies of its curves, and one more arc.
pub fn with_return(
    alloc: Global,
    net: &Net,
    curves: &[Curve],
    from: NodeId,
    to: NodeId,
) -> Result<Returned, AllocError>
    requires from_there { from.0 < net.now.nodes }
    requires to_there { to.0 < net.now.nodes }
    requires apart { from.0 ≢ to.0 }
    requires room { length net.now.arcs < 2 ^ 31 }
    ensures { IfOk result (λ r. r ≡ returned (network net.now (listings curves.now)) from.0 to.0) }
{
    let mut longer = nodes_of(alloc, net)?;
    add_arcs(net, &mut longer)?;
    add_arc(&mut longer, to, from)?;
    let mut kept = copies_of(alloc, curves)?;
    kept.push(line(alloc)?)?;
    Ok(Returned {
        net: longer,
        curves: kept,
    })
}

/// As many nodes, and no arc.
fn nodes_of(alloc: Global, net: &Net) -> Result<Net, AllocError>
    ensures nodes { IfOk result (λ copy. copy.nodes ≡ net.now.nodes) }
    ensures arcs { IfOk result (λ copy. copy.arcs ≡ []) }
{
    let mut copy = Net::new(alloc);
    for _node in 0..net.nodes() {
        copy.add_node()?;
    }
    Ok(copy)
}

/// The arcs in their order.
fn add_arcs(net: &Net, copy: &mut Net) -> Result<(), AllocError>
    requires nodes { copy.old.nodes ≡ net.now.nodes }
    requires arcs { copy.old.arcs ≡ [] }
    ensures nodes { OnOk result (copy.new.nodes ≡ net.now.nodes) }
    ensures arcs { OnOk result (copy.new.arcs ≡ net.now.arcs) }
{
    for j in 0..net.arcs() {
        let arc = ArcId(j as u32);
        add_arc(copy, net.from(arc), net.to(arc))?;
    }
    Ok(())
}

/// A further arc between two different nodes.
fn add_arc(net: &mut Net, from: NodeId, to: NodeId) -> Result<(), AllocError>
    requires from_there { from.0 < net.old.nodes }
    requires to_there { to.0 < net.old.nodes }
    requires apart { from.0 ≢ to.0 }
    requires room { length net.old.arcs < 2 ^ 31 }
    ensures nodes { OnOk result (net.new.nodes ≡ net.old.nodes) }
    ensures arcs { OnOk result (net.new.arcs ≡ net.old.arcs ++ joining from.0 to.0 ∷ []) }
{
    match net.add_arc(from, to) {
        Ok(_) => Ok(()),
        Err(NetFault::NoMemory) => Err(AllocError),
        Err(NetFault::Loop) => unreachable!(),
    }
}

fn copies_of(alloc: Global, curves: &[Curve]) -> Result<Vec<Curve>, AllocError>
    ensures { IfOk result (λ copies. listings copies.items ≡ listings curves.now) }
{
    let mut copies = Vec::new(alloc);
    for curve in curves {
        push_copy(alloc, &mut copies, curve)?;
    }
    Ok(copies)
}

fn push_copy(alloc: Global, copies: &mut Vec<Curve>, curve: &Curve) -> Result<(), AllocError>
    ensures { OnOk result (listings copies.new.items ≡ listings copies.old.items ++ curve.now.listing ∷ []) }
{
    copies.push(curve.copy(alloc)?)?;
    Ok(())
}

fn line(alloc: Global) -> Result<Curve, AllocError>
    ensures { IfOk result (λ curve. curve.listing ≡ line) }
{
    let mut items = Vec::new(alloc);
    items.push(Ext::MinusInf)?;
    items.push(Ext::At(0))?;
    items.push(Ext::PlusInf)?;
    Ok(Curve::of_tested(items, 0))
}
