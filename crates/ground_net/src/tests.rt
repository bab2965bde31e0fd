// The grounded network of a small model, worked by hand.
ghost use Rattle.std.specs.Prelude.{◌≤◌, length, IfOk};
ghost use Rattle.theory.specs.Limits.{list_most, number_most, IsWithin};

use crate::{Grounded, ground};
use model_text::{Model, Name};
use mono_curve::{Curve, Ext, domain_of};
use net_incidence::{ArcId, NodeId};
use std::test::Fail;

fn curve(rt: &HostRuntime, items: &[Ext]) -> Result<Curve, Fail>
    requires { length items.now ≤ list_most }
    ensures short { IfOk result (λ c. length c.listing.items ≤ list_most) }
    ensures base { IfOk result (λ c. IsWithin number_most c.listing.base) }
{
    Ok(Curve::of_list(rt.alloc(), items, 0)?)
}

fn add_node(rt: &HostRuntime, m: &mut Model, name: &[u8], supply: i64) -> Result<(), Fail> {
    let name = Name::of(rt.alloc(), name)?;
    m.add_node(name, curve(rt, &[Ext::At(supply)])?)?;
    Ok(())
}

// Supplies of 5 and -5, and an arc of the two slopes 2 and 5.
fn ordinary(rt: &HostRuntime) -> Result<Model, Fail> {
    let mut m = Model::new(rt.alloc());
    add_node(rt, &mut m, b"s", 5)?;
    add_node(rt, &mut m, b"t", -5)?;
    let name = Name::of(rt.alloc(), b"a")?;
    let steps = [Ext::At(0), Ext::At(2), Ext::At(4), Ext::At(5), Ext::At(10)];
    let joined = curve(rt, &steps)?;
    if m.nodes() == 2 {
        m.add_arc(name, 0, 1, joined)?;
    }
    Ok(m)
}

/// The ends of an arc and of its curve's domain.
fn arc(g: &Grounded, j: u32) -> Option<(NodeId, NodeId, (Ext, Ext))> {
    let net = g.net();
    let arc = ArcId(j);
    if (j as usize) < net.arcs() {
        Some((net.from(arc), net.to(arc), domain_of(g.curve(arc))))
    } else {
        None
    }
}

fn arc_of_node(g: &Grounded, node: u32) -> Option<ArcId> {
    if (node as usize) + 1 < g.net().nodes() {
        Some(g.arc_of_node(node))
    } else {
        None
    }
}

#[test]
fn grounds_a_model(rt: HostRuntime) -> Result<(), Fail> {
    let m = ordinary(&rt)?;
    let g = ground(rt.alloc(), &m)?;
    assert_eq!(rt;
        (g.net().nodes(), g.curves().len(), arc_of_node(&g, 1)),
        (3, 3, Some(ArcId(1)))
    );
    for (j, want) in [
        (0, Some((NodeId(0), NodeId(1), (Ext::At(5), Ext::At(5))))),
        (1, Some((NodeId(0), NodeId(2), (Ext::At(-5), Ext::At(-5))))),
        (2, Some((NodeId(1), NodeId(2), (Ext::At(0), Ext::At(10))))),
        (3, None),
    ] {
        assert_eq!(rt; arc(&g, j), want, "at {j}");
    }
    Ok(())
}

#[test]
fn replaces_a_curve(rt: HostRuntime) -> Result<(), Fail> {
    let mut g = ground(rt.alloc(), &ordinary(&rt)?)?;
    let narrow = curve(&rt, &[Ext::At(0), Ext::At(1), Ext::At(3)])?;
    assert!(rt; g.net().arcs() == 3);
    let before = g.replace_curve(ArcId(2), narrow);
    assert_eq!(rt; domain_of(&before), (Ext::At(0), Ext::At(10)));
    assert_eq!(rt; domain_of(g.curve(ArcId(2))), (Ext::At(0), Ext::At(3)));
    assert_eq!(rt; domain_of(g.curve(ArcId(1))), (Ext::At(-5), Ext::At(-5)));
    Ok(())
}
