// A small model that is solved and then changes three times, and a circuit that loses its curve. Worked by hand.
ghost use Rattle.std.specs.Prelude.{◌≡◌, ◌<◌, ◌≤◌, length, IfOk};
ghost use Rattle.theory.specs.Limits.{list_most, number_most, IsWithin};

use crate::{Kind, Warm};
use cert_text::Certificate;
use ground_net::{Grounded, ground};
use model_text::read_model;
use mono_curve::{Curve, Ext, Steps};
use net_incidence::ArcId;
use std::marker::Brand;
use std::process::Abort;
use std::sync::ledger::{Blank, Ledger};
use std::test::Fail;

fn curve(rt: &(impl Abort + AllocGlobal), items: &[Ext]) -> Result<Curve, Fail>
    requires { length items.now ≤ list_most }
    ensures short { IfOk result (λ c. length c.listing.items ≤ list_most) }
    ensures base { IfOk result (λ c. IsWithin number_most c.listing.base) }
{
    Ok(Curve::of_list(rt.alloc(), items, 0)?)
}

fn grounded_of(rt: &(impl Abort + AllocGlobal), text: &[u8]) -> Result<Grounded, Fail> {
    assert!(rt; text.len() < 1000);
    let model = read_model(rt.alloc(), text)?;
    Ok(ground(rt.alloc(), &model)?)
}

/// The kind of the kept certificate, and its number.
fn state(warm: &Warm) -> (Kind, i128) {
    let number = match warm.kept() {
        Certificate::Optimal { cost, .. } => *cost,
        Certificate::Cut { capacity, .. } => *capacity,
        Certificate::Circuit { span, .. } => *span,
    };
    (Kind::of(warm.kept()), number)
}

/// One change after the other of the model: an arc, its list, and the state then.
fn counted<L: Ledger>(
    rt: &(impl Abort + AllocGlobal),
    text: &[u8],
    first: (Kind, i128),
    changes: &[(u32, &[Ext], (Kind, i128))],
    blank: Blank,
) -> Result<(), Fail>
    requires name { blank.name ≡ L.name }
    requires parts { blank.parts ≡ L.parts }
    requires some { 0 < blank.parts }
{
    let mut steps = Steps::<L>::open(blank);
    let mut warm = Warm::start(rt.alloc(), grounded_of(rt, text)?, &mut steps)?;
    assert_eq!(rt; state(&warm), first);
    for (arc, items, wanted) in changes {
        assert!(rt; (*arc as usize) < warm.network().net().arcs() && items.len() < 9);
        let kind = warm.change(ArcId(*arc), curve(rt, items)?, &mut steps)?;
        assert_eq!(rt; kind, wanted.0);
        assert_eq!(rt; state(&warm), *wanted);
    }
    Ok(())
}

/// The same where nobody reads the count.
fn follow(
    rt: &(impl Abort + AllocGlobal),
    text: &[u8],
    first: (Kind, i128),
    changes: &[(u32, &[Ext], (Kind, i128))],
) -> Result<(), Fail> {
    counted::<Brand>(rt, text, first, changes, Blank::new(1))
}

#[test]
fn follows_the_changes_of_a_model(rt: HostRuntime) -> Result<(), Fail> {
    // Any supply at 2 a unit, a demand of 5, and an arc of up to 10 units: 4 at a price of 2 and the rest at 5.
    let text = b"network 1\nnode s -inf 2 +inf\nnode t -5\narc a s t 0 2 4 5 10\n";
    let wider = [Ext::At(0), Ext::At(2), Ext::At(4), Ext::At(5), Ext::At(20)];
    let narrow = [Ext::At(0), Ext::At(1), Ext::At(3)];
    let changes = [
        // The flow 5 is as dear as before.
        (2, wider.as_slice(), (Kind::Optimal, 23)),
        // 3 units can come, and 5 are asked for.
        (2, narrow.as_slice(), (Kind::Cut, -2)),
        // 2 units at a price of 3 each.
        (1, [Ext::At(-2)].as_slice(), (Kind::Optimal, 6)),
    ];
    follow(&rt, text, (Kind::Optimal, 23), changes.as_slice())
}

#[test]
fn follows_the_changes_of_a_circuit(rt: HostRuntime) -> Result<(), Fail> {
    // Each unit that goes round gains 2.
    let text = b"network 1\nnode s\nnode t\narc a s t 0 -3 +inf\narc b t s 0 1 +inf\n";
    let changes = [
        // It gains 3 now, and 1, and the way back has an end.
        (
            2,
            [Ext::At(0), Ext::At(-4), Ext::PlusInf].as_slice(),
            (Kind::Circuit, -3),
        ),
        (
            3,
            [Ext::At(0), Ext::At(3), Ext::PlusInf].as_slice(),
            (Kind::Circuit, -1),
        ),
        (
            3,
            [Ext::At(0), Ext::At(3), Ext::At(7)].as_slice(),
            (Kind::Optimal, -7),
        ),
    ];
    follow(&rt, text, (Kind::Circuit, -2), changes.as_slice())
}
