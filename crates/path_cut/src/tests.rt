// What is found between the two nodes of a small model, worked by hand.
ghost use Rattle.std.specs.Prelude.{◌≡◌, ◌<◌, ◌≤◌, length, IfOk};
ghost use Rattle.theory.specs.Limits.{list_most, number_most, IsWithin};

use crate::{FlowFound, TensionFound, flow_between, tension_between};
use ground_net::{Grounded, ground};
use model_text::{Model, Name};
use mono_curve::Ext::{self, At, PlusInf};
use mono_curve::{Curve, Steps};
use net_incidence::NodeId;
use std::marker::Brand;
use std::process::Abort;
use std::sync::ledger::{Blank, Ledger};
use std::test::Fail;

fn curve(rt: &(impl Abort + AllocGlobal), items: &[Ext]) -> Result<Curve, Fail>
    requires { length items.now ≤ list_most }
    ensures short { IfOk result (λ c. length c.listing.items ≤ list_most) }
    ensures base { IfOk result (λ c. IsWithin number_most c.listing.base) }
{
    Ok(Curve::of_list(rt.alloc(), items, 0)?)
}

fn add_node(
    rt: &(impl Abort + AllocGlobal),
    m: &mut Model,
    name: &[u8],
    supply: i64,
) -> Result<(), Fail> {
    let name = Name::of(rt.alloc(), name)?;
    m.add_node(name, curve(rt, &[At(supply)])?)?;
    Ok(())
}

/// A supply of 5 and a demand of 5, and an arc between the two nodes.
fn joined(rt: &(impl Abort + AllocGlobal), items: &[Ext]) -> Result<Grounded, Fail>
    requires { length items.now ≤ list_most }
{
    let mut m = Model::new(rt.alloc());
    add_node(rt, &mut m, b"s", 5)?;
    add_node(rt, &mut m, b"t", -5)?;
    let name = Name::of(rt.alloc(), b"a")?;
    let joined = curve(rt, items)?;
    if m.nodes() == 2 {
        m.add_arc(name, 0, 1, joined)?;
    }
    Ok(ground(rt.alloc(), &m)?)
}

fn found<L: Ledger>(
    rt: &(impl Abort + AllocGlobal),
    g: &Grounded,
    blank: Blank,
) -> Result<(FlowFound, TensionFound), Fail>
    requires name { blank.name ≡ L.name }
    requires parts { blank.parts ≡ L.parts }
    requires some { 0 < blank.parts }
{
    let mut steps = Steps::<L>::open(blank);
    assert!(rt; g.net().nodes() == 3);
    let (from, to) = (NodeId(1), NodeId(2));
    let flow = flow_between(rt.alloc(), g, from, to, &mut steps)?;
    let tension = tension_between(rt.alloc(), g, from, to, &mut steps)?;
    Ok((flow, tension))
}

#[test]
fn finds_a_greatest_flow(rt: HostRuntime) -> Result<(), Fail> {
    let g = joined(&rt, &[At(0), At(2), At(10)])?;
    let (flow, tension) = found::<Brand>(&rt, &g, Blank::new(1))?;
    match flow {
        FlowFound::Greatest { flow, flows, .. } => {
            assert_eq!(rt; flow, 5);
            assert_eq!(rt; flows.as_slice(), [5, -5, 10, 5].as_slice());
        }
        _ => assert!(rt; false),
    }
    assert!(rt; matches!(tension, TensionFound::Unbounded { .. }));
    Ok(())
}

#[test]
fn finds_a_greatest_tension(rt: HostRuntime) -> Result<(), Fail> {
    let g = joined(&rt, &[At(0), At(2), PlusInf])?;
    let (flow, tension) = found::<Brand>(&rt, &g, Blank::new(1))?;
    match tension {
        TensionFound::Greatest { tension, walk, .. } => {
            assert_eq!(rt; tension, 2);
            assert_eq!(rt; walk.as_slice().len(), 1);
        }
        _ => assert!(rt; false),
    }
    assert!(rt; matches!(flow, FlowFound::Unbounded { .. }));
    Ok(())
}
