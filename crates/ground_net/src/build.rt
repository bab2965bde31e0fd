// Building the grounded network of a model, arc by arc.
ghost use Rattle.std.specs.Prelude.{◌≡◌, ◌≢◌, ℕ, ◌+◌, ◌<◌, ◌≤◌, ◌^◌, [], ◌∷◌, ◌++◌, length, IfOk, OnOk};
ghost use Rattle.theory.specs.Grounded.{grounded, joining};
ghost use Rattle.ground_net.specs.Ground.{listings};
ghost use Rattle.ground_net.specs.Built.{IsBuilt};

use crate::grounded::Grounded;
use model_text::Model;
use mono_curve::Curve;
use net_incidence::{Net, NetFault, NodeId};
use std::alloc::{AllocError, Global};

/// The grounded network of the model. Its curves are copies.
pub fn ground(alloc: Global, m: &Model) -> Result<Grounded, AllocError>
    ensures { IfOk result (λ g. g.network ≡ grounded m.now.entries) }
{
    let mut net = nodes(alloc, m.nodes() + 1)?;
    let mut curves = Vec::new(alloc);
    add_ground_arcs(alloc, &mut net, &mut curves, m)?;
    add_model_arcs(alloc, &mut net, &mut curves, m)?;
    Ok(Grounded::of_parts(net, curves))
}

fn nodes(alloc: Global, count: u32) -> Result<Net, AllocError>
    requires { count ≤ 2 ^ 31 }
    ensures nodes { IfOk result (λ net. net.nodes ≡ count) }
    ensures arcs { IfOk result (λ net. net.arcs ≡ []) }
{
    let mut net = Net::new(alloc);
    for _node in 0..count {
        net.add_node()?;
    }
    Ok(net)
}

/// From the ground to each node of the model, with the curve of its supply.
fn add_ground_arcs(
    alloc: Global,
    net: &mut Net,
    curves: &mut Vec<Curve>,
    m: &Model,
) -> Result<(), AllocError>
    requires { IsBuilt m.now.entries 0 net.old (listings curves.old.items) }
    ensures { OnOk result (IsBuilt m.now.entries (length m.now.entries.nodes) net.new (listings curves.new.items)) }
{
    for i in 0..m.nodes() {
        add_arc(alloc, net, curves, (0, i + 1), m.supply(i))?;
    }
    Ok(())
}

/// The arcs of the model, their ends one higher.
fn add_model_arcs(
    alloc: Global,
    net: &mut Net,
    curves: &mut Vec<Curve>,
    m: &Model,
) -> Result<(), AllocError>
    requires { IsBuilt m.now.entries (length m.now.entries.nodes) net.old (listings curves.old.items) }
    ensures { OnOk result (IsBuilt m.now.entries (length m.now.entries.nodes + length m.now.entries.arcs) net.new (listings curves.new.items)) }
{
    for j in 0..m.arcs() {
        add_arc(
            alloc,
            net,
            curves,
            (m.arc_from(j) + 1, m.arc_to(j) + 1),
            m.arc_curve(j),
        )?;
    }
    Ok(())
}

/// A further arc between two different nodes, with a copy of the curve.
fn add_arc(
    alloc: Global,
    net: &mut Net,
    curves: &mut Vec<Curve>,
    ends: (u32, u32),
    curve: &Curve,
) -> Result<(), AllocError>
    requires from_there { ends.0 < net.old.nodes }
    requires to_there { ends.1 < net.old.nodes }
    requires apart { ends.0 ≢ ends.1 }
    requires room { length net.old.arcs < 2 ^ 31 }
    ensures nodes { OnOk result (net.new.nodes ≡ net.old.nodes) }
    ensures arcs { OnOk result (net.new.arcs ≡ net.old.arcs ++ joining ends.0 ends.1 ∷ []) }
    ensures curves { OnOk result (listings curves.new.items ≡ listings curves.old.items ++ curve.now.listing ∷ []) }
{
    let copy = curve.copy(alloc)?;
    match net.add_arc(NodeId(ends.0), NodeId(ends.1)) {
        Ok(_) => {}
        Err(NetFault::NoMemory) => return Err(AllocError),
        Err(NetFault::Loop) => unreachable!(),
    }
    curves.push(copy)?;
    Ok(())
}
