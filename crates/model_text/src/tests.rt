// Names and printed models, with values from the format's own description.
ghost use Rattle.std.specs.Prelude.{◌≤◌, length, IfOk};
ghost use Rattle.theory.specs.Limits.{list_most, number_most, IsWithin};

use crate::{LIST_MOST, Model, NAME_MOST, Name, is_name, print_model};
use mono_curve::{Curve, Ext};
use std::test::Fail;

#[test]
fn tells_names(rt: HostRuntime) {
    let long = [b'n'; 65];
    for (bytes, want) in [
        (b"s".as_slice(), true),
        (b"aZ09_-.:".as_slice(), true),
        (b"-inf".as_slice(), true),
        (&long[..NAME_MOST], true),
        (long.as_slice(), false),
        (b"".as_slice(), false),
        (b"a b".as_slice(), false),
        (b"*".as_slice(), false),
        (b"a#".as_slice(), false),
        (b"\xc3\xa9".as_slice(), false),
    ] {
        assert_eq!(rt; is_name(bytes), want, "at {bytes:?}");
    }
}

// The curves of the tests lie within a model's limits.
fn curve(rt: &HostRuntime, items: &[Ext], base: i8) -> Result<Curve, Fail>
    requires { length items.now ≤ list_most }
    ensures short { IfOk result (λ c. length c.listing.items ≤ list_most) }
    ensures base { IfOk result (λ c. IsWithin number_most c.listing.base) }
{
    Ok(Curve::of_list(rt.alloc(), items, i128::from(base))?)
}

fn add_node(
    rt: &HostRuntime,
    m: &mut Model,
    name: &[u8],
    supply: i64,
    base: i8,
) -> Result<(), Fail> {
    let name = Name::of(rt.alloc(), name)?;
    let supply = curve(rt, &[Ext::At(supply)], base)?;
    m.add_node(name, supply)?;
    Ok(())
}

fn add_arc(
    rt: &HostRuntime,
    m: &mut Model,
    name: &[u8],
    from: &[u8],
    to: &[u8],
    items: &[Ext; 5],
) -> Result<(), Fail> {
    let from = m.node_of(from).ok_or("the node is there")?;
    let to = m.node_of(to).ok_or("the node is there")?;
    let name = Name::of(rt.alloc(), name)?;
    let curve = curve(rt, items, -2)?;
    m.add_arc(name, from, to, curve)?;
    Ok(())
}

const STEPS: [Ext; 5] = [Ext::At(0), Ext::At(2), Ext::At(4), Ext::At(5), Ext::At(10)];

const FREE: [Ext; 5] = [
    Ext::MinusInf,
    Ext::At(-3),
    Ext::At(0),
    Ext::At(3),
    Ext::PlusInf,
];

fn sample(rt: &HostRuntime) -> Result<Model, Fail> {
    let mut m = Model::new(rt.alloc());
    add_node(rt, &mut m, b"s", 4, 7)?;
    add_node(rt, &mut m, b"t", -4, 0)?;
    add_arc(rt, &mut m, b"a", b"s", b"t", &STEPS)?;
    add_arc(rt, &mut m, b"s", b"t", b"s", &FREE)?;
    Ok(m)
}

#[test]
fn prints_a_model(rt: HostRuntime) -> Result<(), Fail> {
    let text = print_model(rt.alloc(), &sample(&rt)?)?;
    let want =
        b"network 1\nnode s 4 base 7\nnode t -4\narc a s t 0 2 4 5 10 base -2\narc s t s -inf -3 0 3 +inf base -2\n";
    assert_eq!(rt; text.as_slice(), want.as_slice());
    Ok(())
}

#[test]
fn finds_names(rt: HostRuntime) -> Result<(), Fail> {
    let m = sample(&rt)?;
    for (name, node, arc) in [
        (b"s", Some(0), Some(1)),
        (b"t", Some(1), None),
        (b"a", None, Some(0)),
    ] {
        assert_eq!(rt; m.node_of(name), node, "the node {name:?}");
        assert_eq!(rt; m.arc_of(name), arc, "the arc {name:?}");
    }
    Ok(())
}
