// Searches in a small net worked by hand, and a room that keeps what is written.
ghost use Rattle.std.specs.Prelude.{◌≡◌, ◌<◌, length, slice_index_or};
ghost use Rattle.theory.specs.declared.colour.Colour.{Colour as Shade};

use crate::{Colour, Found, Painter, Work, search};
use mono_curve::Steps;
use net_incidence::Net;
use std::alloc::{AllocError, Global};
use std::marker::Brand;
use std::process::Abort;
use std::sync::ledger::{Blank, Ledger};
use std::test::Fail;
use theory::Colour::{Black, Green, Red, White};
use theory::{ArcId, NodeId, Step};

#[derive(Drop)]
struct Colours<'a> {
    list: &'a [Colour],
}

impl Painter for Colours<'_> {
    ghost ready = { λ s flows potentials. length flows ≡ length s.list.now };

    ghost paint = { λ s flows potentials j. slice_index_or s.list.now j Shade.Red };

    ghost weight = { λ s. 1 };

    fn colour<L: Ledger>(&self, work: &Work, arc: ArcId, steps: &mut Steps<L>) -> Colour {
        steps.tick();
        self.list[arc.0 as usize]
    }
}

fn forward(arc: u32) -> Step {
    Step {
        arc: ArcId(arc),
        forward: true,
    }
}

fn backward(arc: u32) -> Step {
    Step {
        arc: ArcId(arc),
        forward: false,
    }
}

// Nodes 0 to 3 in a row, with the arc in the middle against the others.
fn row_of_nodes(rt: &(impl Abort + AllocGlobal)) -> Result<Net, Fail> {
    let mut net = Net::new(rt.alloc());
    for _ in 0..4 {
        assert!(rt; net.nodes() < 4);
        net.add_node()?;
    }
    for (from, to) in [(0, 1), (2, 1), (2, 3)] {
        assert!(rt; (from as usize) < net.nodes() && (to as usize) < net.nodes() && net.arcs() < 3);
        net.add_arc(NodeId(from), NodeId(to))?;
    }
    Ok(net)
}

/// What a search for a path between two nodes found, and the room after it.
fn searched<L: Ledger>(
    alloc: Global,
    net: &Net,
    colours: &[Colour],
    from: u32,
    to: u32,
    blank: Blank,
) -> Result<Option<(Found, Work)>, AllocError>
    requires name { blank.name ≡ L.name }
    requires parts { blank.parts ≡ L.parts }
    requires some { 0 < blank.parts }
{
    let mut steps = Steps::<L>::open(blank);
    let (nodes, arcs) = (net.nodes(), net.arcs());
    if nodes > 9 || arcs > 9 || colours.len() != arcs {
        return Ok(None);
    }
    if from as usize >= nodes || to as usize >= nodes || from == to {
        return Ok(None);
    }
    let mut work = Work::take(alloc, nodes, arcs)?;
    let painter = Colours { list: colours };
    let found = search(
        net,
        &painter,
        NodeId(from),
        NodeId(to),
        &mut work,
        &mut steps,
    );
    Ok(Some((found, work)))
}

#[test]
fn finds_paths_and_cuts(rt: HostRuntime) -> Result<(), Fail> {
    let net = row_of_nodes(&rt)?;
    let (f, b) = (forward, backward);
    let two = [f(0), b(1)];
    let three = [f(0), b(1), f(2)];
    for (colours, from, to, found, walk, marks) in [
        // Two steps, the second one backward; then three.
        (
            [White, Black, Red],
            0,
            2,
            Found::Path,
            two.as_slice(),
            [true, true, true, false],
        ),
        (
            [White, Black, Green],
            0,
            3,
            Found::Path,
            three.as_slice(),
            [true, true, true, true],
        ),
        // Red lets no step pass, white none backward, black none forward.
        (
            [Green, Green, Red],
            0,
            3,
            Found::Cut,
            two.as_slice(),
            [true, true, true, false],
        ),
        (
            [Green, White, Green],
            0,
            3,
            Found::Cut,
            [f(0)].as_slice(),
            [true, true, false, false],
        ),
        (
            [Black, Green, Green],
            0,
            3,
            Found::Cut,
            [].as_slice(),
            [true, false, false, false],
        ),
        // The same from the other end.
        (
            [Green, White, Black],
            3,
            0,
            Found::Path,
            [b(2), f(1), b(0)].as_slice(),
            [true, true, true, true],
        ),
        (
            [White, White, Black],
            3,
            0,
            Found::Cut,
            [b(2), f(1)].as_slice(),
            [false, true, true, true],
        ),
    ] {
        let seen = searched::<Brand>(rt.alloc(), &net, &colours, from, to, Blank::new(1))?;
        let (answer, work) = seen.expect(&rt, "both nodes are there");
        assert_eq!(rt; answer, found, "for {colours:?}");
        let mut steps = Vec::with_capacity(rt.alloc(), work.walk_len())?;
        work.put_walk(&mut steps);
        assert_eq!(rt; steps.as_slice(), walk, "for {colours:?}");
        let mut marked = Vec::with_capacity(rt.alloc(), work.nodes())?;
        work.put_marks(&mut marked);
        assert_eq!(rt; marked.as_slice(), marks.as_slice(), "for {colours:?}");
    }
    Ok(())
}

#[test]
fn keeps_what_is_written(rt: HostRuntime) -> Result<(), Fail> {
    let mut work = Work::take(rt.alloc(), 2, 3)?;
    assert_eq!(rt; (work.nodes(), work.arcs(), work.walk_len()), (2, 3, 0));
    work.set_flow(ArcId(2), -5);
    work.set_potential(NodeId(1), 7);
    work.push_step(backward(2));
    assert!(rt; work.nodes() == 2 && work.walk_len() == 1);
    assert_eq!(rt; work.flows(), [0, 0, -5].as_slice());
    assert_eq!(rt; work.potentials(), [0, 7].as_slice());
    assert_eq!(rt;
        (
            work.flow(ArcId(2)),
            work.potential(NodeId(1)),
            work.walk_step(0)
        ),
        (-5, 7, backward(2))
    );
    assert_eq!(rt;
        (work.reached(NodeId(0)), work.label(NodeId(0))),
        (false, None)
    );
    let words = work.potentials_mut();
    words[0] = 3;
    words[5] = 4;
    assert_eq!(rt; work.potentials(), [3, 7].as_slice());
    work.clear_walk();
    assert_eq!(rt; work.walk_len(), 0);
    Ok(())
}

#[test]
fn keeps_a_queue(rt: HostRuntime) -> Result<(), Fail> {
    let mut work = Work::take(rt.alloc(), 2, 3)?;
    assert_eq!(rt; work.queue(4), 0);
    work.set_queue(4, 9);
    assert_eq!(rt; (work.queue(3), work.queue(4)), (0, 9));
    Ok(())
}
