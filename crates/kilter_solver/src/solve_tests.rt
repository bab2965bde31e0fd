// Whole solves of small models: as they are drawn, and by the passes alone. And pairs and cuts that no test may take.
ghost use Rattle.std.specs.Prelude.{◌≡◌, ◌<◌, IfOk};
ghost use Rattle.theory.specs.Certificate.{IsValid};
ghost use Rattle.cert_text.specs.Shown.{shown};

use crate::judging::pass;
use crate::kind::Kind;
use crate::tests::{curves_of, net_of};
use crate::{feasibility, is_in_kilter, is_negative_cut, prepare, solve, solve_in};
use cert_text::{Certificate, FlowPart, TensionPart, print_cert};
use ground_net::{Grounded, ground};
use model_text::read_model;
use mono_curve::{Ext, Steps};
use painted_search::Work;
use std::marker::Brand;
use std::process::Abort;
use std::sync::ledger::{Blank, Ledger};
use std::test::Fail;
use theory::{ArcId, NodeId};

/// The kind of a certificate, with its number.
fn number_of(certificate: &Certificate) -> (Kind, i128) {
    match certificate {
        Certificate::Optimal { cost, .. } => (Kind::Optimal, *cost),
        Certificate::Cut { capacity, .. } => (Kind::Cut, *capacity),
        Certificate::Circuit { span, .. } => (Kind::Circuit, *span),
    }
}

pub(crate) fn grounded_of(rt: &(impl Abort + AllocGlobal), text: &[u8]) -> Result<Grounded, Fail> {
    assert!(rt; text.len() < 1000);
    let model = read_model(rt.alloc(), text)?;
    Ok(ground(rt.alloc(), &model)?)
}

fn solved<L: Ledger>(
    rt: &(impl Abort + AllocGlobal),
    g: &Grounded,
    blank: Blank,
) -> Result<(Kind, i128), Fail>
    requires name { blank.name ≡ L.name }
    requires parts { blank.parts ≡ L.parts }
    requires some { 0 < blank.parts }
{
    let mut steps = Steps::<L>::open(blank);
    Ok(number_of(&solve(rt.alloc(), g, &mut steps)?))
}

/// The three calls of a solve, one after the other: the kind that is found, and the certificate that is made of it.
fn solved_in_room<L: Ledger>(
    rt: &(impl Abort + AllocGlobal),
    g: &Grounded,
    blank: Blank,
) -> Result<(Kind, Certificate), Fail>
    requires name { blank.name ≡ L.name }
    requires parts { blank.parts ≡ L.parts }
    requires some { 0 < blank.parts }
    ensures { IfOk result (λ found. IsValid g.now.network (shown found.1)) }
{
    let mut steps = Steps::<L>::open(blank);
    let mut prepared = prepare(rt.alloc(), g)?;
    let kind = solve_in(g.net(), g.curves(), &mut prepared, &mut steps);
    Ok((kind, prepared.certificate(g)))
}

/// What is found where nothing is drawn.
fn passed<L: Ledger>(
    rt: &(impl Abort + AllocGlobal),
    g: &Grounded,
    blank: Blank,
) -> Result<Kind, Fail>
    requires name { blank.name ≡ L.name }
    requires parts { blank.parts ≡ L.parts }
    requires some { 0 < blank.parts }
{
    let mut steps = Steps::<L>::open(blank);
    let mut work = Work::take(rt.alloc(), g.net().nodes(), g.net().arcs())?;
    Ok(pass(g.net(), g.curves(), &mut work, &mut steps))
}

/// Whether there is a feasible flow, and a feasible potential.
fn found<L: Ledger>(
    rt: &(impl Abort + AllocGlobal),
    g: &Grounded,
    blank: Blank,
) -> Result<(bool, bool), Fail>
    requires name { blank.name ≡ L.name }
    requires parts { blank.parts ≡ L.parts }
    requires some { 0 < blank.parts }
{
    let mut steps = Steps::<L>::open(blank);
    let parts = feasibility(rt.alloc(), g, &mut steps)?;
    Ok((
        matches!(parts.flow, FlowPart::Yes(_)),
        matches!(parts.tension, TensionPart::Yes(_)),
    ))
}

/// Solved as it is drawn the model has this kind of certificate with this number, in one call and in three, and by the passes alone
/// this kind; and it has these parts.
fn compare(
    rt: &(impl Abort + AllocGlobal),
    text: &[u8],
    answer: (Kind, i128),
    parts: (bool, bool),
) -> Result<(), Fail> {
    let g = grounded_of(rt, text)?;
    let drawn = solved::<Brand>(rt, &g, Blank::new(1))?;
    let (kind, certificate) = solved_in_room::<Brand>(rt, &g, Blank::new(1))?;
    let by_passes = passed::<Brand>(rt, &g, Blank::new(1))?;
    let feasible = found::<Brand>(rt, &g, Blank::new(1))?;
    assert_eq!(rt; drawn, answer);
    assert_eq!(rt; kind, answer.0);
    assert_eq!(rt; number_of(&certificate), answer);
    assert_eq!(rt; by_passes, answer.0);
    assert_eq!(rt; feasible, parts);
    Ok(())
}

#[test]
fn solves_as_drawn_and_by_passes(rt: HostRuntime) -> Result<(), Fail> {
    let rows = [
        // 5 units, 4 of them at a price of 2.
        (
            b"network 1\nnode s 5\nnode t -5\narc a s t 0 2 4 5 10\n".as_slice(),
            (Kind::Optimal, 13),
            (true, true),
        ),
        // Bases count.
        (
            b"network 1\nnode s 5 base 7\nnode t -5\narc a s t 2 1 9 base -3\n".as_slice(),
            (Kind::Optimal, 7),
            (true, true),
        ),
        // The arc takes 3 of 5.
        (
            b"network 1\nnode s 5\nnode t -5\narc a s t 0 1 3\n".as_slice(),
            (Kind::Cut, -2),
            (false, true),
        ),
        // Round and round for less.
        (
            b"network 1\nnode s 0\nnode t 0\narc a s t 0 -1 +inf\narc b t s 0 -1 +inf\n".as_slice(),
            (Kind::Circuit, -2),
            (true, false),
        ),
        // Neither flow nor potential.
        (
            b"network 1\nnode s 5\nnode t -3\narc a s t 0 -1 +inf\narc b t s 0 -1 +inf\n".as_slice(),
            (Kind::Cut, -2),
            (false, false),
        ),
        (b"network 1\n".as_slice(), (Kind::Optimal, 0), (true, true)),
    ];
    for (text, answer, parts) in rows {
        compare(&rt, text, answer, parts)?;
    }
    Ok(())
}

/// The certificate that is made of what is found, as it is printed.
fn compare_printed(
    rt: &(impl Abort + AllocGlobal),
    text: &[u8],
    wanted: &[u8],
) -> Result<(), Fail> {
    assert!(rt; text.len() < 1000);
    let model = read_model(rt.alloc(), text)?;
    let g = ground(rt.alloc(), &model)?;
    let (kind, certificate) = solved_in_room::<Brand>(rt, &g, Blank::new(1))?;
    assert_eq!(rt; kind, Kind::Optimal);
    let printed = print_cert(rt.alloc(), &model, &certificate)?;
    assert_eq!(rt; printed.as_slice(), wanted);
    Ok(())
}

#[test]
fn prints_what_is_found_in_room(rt: HostRuntime) -> Result<(), Fail> {
    // 5 units, 4 of them at a price of 2 and one at 5, and each at 2 before: no other pair is optimal.
    compare_printed(
        &rt,
        b"network 1\nnode s -inf 2 +inf\nnode t -5\narc a s t 0 2 4 5 10\n",
        b"certificate 1 optimal\ncost 23\nvalue 23\nnode s 2 5\nnode t 7 -5\narc a 5\n",
    )?;
    // With decimals: 50 tenths of a unit, at 2.25 and 5, and each at 2.50 before.
    compare_printed(
        &rt,
        b"network 2\ndecimals 1 2\nnode s -inf 2.5 +inf\nnode t -5\narc a s t 0 2.25 4 5 10\n",
        b"certificate 2 optimal\ncost 26.500\nvalue 26.500\nnode s 2.50 5.0\nnode t 7.50 -5.0\narc a 5.0\n",
    )
}

/// Room for two nodes and two arcs, with these flows and potentials, and the first node marked.
fn room_of(rt: &impl AllocGlobal, flows: [i64; 2], potentials: [i64; 2]) -> Result<Work, Fail>
    ensures nodes { IfOk result (λ work. work.nodes ≡ 2) }
    ensures arcs { IfOk result (λ work. work.arcs ≡ 2) }
{
    let mut work = Work::take(rt.alloc(), 2, 2)?;
    work.set_flow(ArcId(0), flows[0]);
    work.set_flow(ArcId(1), flows[1]);
    work.set_potential(NodeId(0), potentials[0]);
    work.set_potential(NodeId(1), potentials[1]);
    work.mark(NodeId(0));
    Ok(work)
}

/// What the tests say of a flow and a potential, and of the first node alone as a cut: two nodes, an arc of up to 2 units at a
/// price of 1 each, and an arc back that takes from `least` to 9 units.
fn tested<L: Ledger>(
    rt: &(impl Abort + AllocGlobal),
    least: Ext,
    flows: [i64; 2],
    potentials: [i64; 2],
    blank: Blank,
) -> Result<(bool, bool), Fail>
    requires name { blank.name ≡ L.name }
    requires parts { blank.parts ≡ L.parts }
    requires some { 0 < blank.parts }
{
    let mut steps = Steps::<L>::open(blank);
    let net = net_of(rt, 2, &[(0, 1), (1, 0)])?;
    let there = [Ext::At(0), Ext::At(1), Ext::At(2)];
    let back = [least, Ext::At(0), Ext::At(9)];
    let curves = curves_of(rt, &[there, back])?;
    assert!(rt; net.nodes() == 2 && net.arcs() == 2 && curves.len() == 2);
    let work = room_of(rt, flows, potentials)?;
    let pair = is_in_kilter(&net, curves.as_slice(), &work, &mut steps);
    let cut = is_negative_cut(&net, curves.as_slice(), &work, &mut steps);
    Ok((pair, cut))
}

#[test]
fn tests_pairs_and_cuts(rt: HostRuntime) -> Result<(), Fail> {
    for (least, flows, potentials, pair, cut) in [
        // One unit goes round, at its price.
        (Ext::At(1), [1, 1], [0, 1], true, false),
        // At a price below, at one above, and not from the ground on.
        (Ext::At(1), [1, 1], [0, 0], false, false),
        (Ext::At(1), [1, 1], [0, 2], false, false),
        (Ext::At(1), [1, 1], [1, 2], false, false),
        // More goes than comes back, and less.
        (Ext::At(1), [2, 1], [0, 1], false, false),
        (Ext::At(1), [0, 1], [0, 1], false, false),
        // 4 have to come back, and 2 can go.
        (Ext::At(4), [4, 4], [0, 1], false, true),
        (Ext::At(2), [2, 2], [0, 1], true, false),
        // Any flow comes back, or goes.
        (Ext::MinusInf, [0, 0], [0, 0], true, false),
    ] {
        let found = tested::<Brand>(&rt, least, flows, potentials, Blank::new(1))?;
        assert_eq!(rt; found, (pair, cut));
    }
    Ok(())
}
