// The spanning tree of the simplex: parents, sizes and a list of all nodes in preorder, with the flow from each node to
// its parent and the piece that this flow stands on. The root is no node of the net and is its own parent.
use crate::feed::Ends;
use crate::tables::{FAR, NONE, Table, minus};
use std::alloc::{AllocError, Global};

/// How far the root's potential may move from 0 before all are moved back.
const DRIFT_MOST: i64 = FAR / 8;

/// A node's place in the tree.
#[derive(Clone, Copy)]
pub(crate) struct Twig {
    pub(crate) parent: u32,
    // How many nodes the subtree has.
    pub(crate) size: u32,
    // The flow from the node to its parent, and the ends of its piece, seen the same way.
    pub(crate) flow: i64,
    pub(crate) low: i64,
    pub(crate) high: i64,
}

/// What joins a node to its parent: a lane, or an artificial arc where the lane is `NONE`.
#[derive(Clone, Copy)]
pub(crate) struct Bond {
    pub(crate) lane: u32,
    // Whether it leads from the node to its parent.
    pub(crate) up: bool,
}

/// Which side of the cycle a tree arc leaves from; neither where the entering lane comes to its goal first.
#[derive(Clone, Copy, PartialEq, Eq)]
pub(crate) enum Side {
    Neither,
    First,
    Second,
}

/// A cycle: where its two sides meet, and what stops its flow.
#[derive(Clone, Copy)]
pub(crate) struct Meeting {
    pub(crate) join: u32,
    pub(crate) amount: i64,
    pub(crate) side: Side,
    // The node whose bond leaves.
    pub(crate) leaver: u32,
    pub(crate) length: u64,
}

#[derive(Drop)]
pub(crate) struct Tree {
    pub(crate) root: u32,
    twigs: Table<Twig>,
    bonds: Table<Bond>,
    next: Table<u32>,
    previous: Table<u32>,
    // The last node of each subtree.
    last: Table<u32>,
    pub(crate) potentials: Table<i64>,
}

impl Tree {
    /// Room for a root and this many nodes.
    pub(crate) fn take(alloc: Global, nodes: usize) -> Result<Tree, AllocError> {
        let twig = Twig {
            parent: 0,
            size: 0,
            flow: 0,
            low: 0,
            high: 0,
        };
        let bond = Bond {
            lane: NONE,
            up: true,
        };
        let count = nodes.wrapping_add(1);
        Ok(Tree {
            root: 0,
            twigs: Table::take(alloc, count, twig)?,
            bonds: Table::take(alloc, count, bond)?,
            next: Table::take(alloc, count, 0)?,
            previous: Table::take(alloc, count, 0)?,
            last: Table::take(alloc, count, 0)?,
            potentials: Table::take(alloc, count, 0)?,
        })
    }

    pub(crate) fn twig(&self, node: u32) -> Twig {
        self.twigs.at(node)
    }

    pub(crate) fn bond(&self, node: u32) -> Bond {
        self.bonds.at(node)
    }

    /// How much higher one node is than another.
    pub(crate) fn rise(&self, from: u32, to: u32) -> i64 {
        self.potentials
            .at(to)
            .wrapping_sub(self.potentials.at(from))
    }

    /// The flow along the bond's own direction.
    pub(crate) fn flow_of(&self, node: u32) -> i64 {
        let flow = self.twigs.at(node).flow;
        if self.bonds.at(node).up {
            flow
        } else {
            minus(flow)
        }
    }

    // ---- planting

    /// Leaves the root alone in the tree.
    pub(crate) fn clear(&mut self, root: u32) {
        self.root = root;
        let twig = Twig {
            parent: root,
            size: 1,
            flow: 0,
            low: 0,
            high: 0,
        };
        self.twigs.set(root, twig);
        self.next.set(root, root);
        self.previous.set(root, root);
        self.last.set(root, root);
        self.potentials.set(root, 0);
    }

    /// Hangs a further node on one of the tree, as its first child. Sizes and last nodes wait for `measure`.
    pub(crate) fn plant(&mut self, node: u32, twig: Twig, bond: Bond, potential: i64) {
        let behind = self.next.at(twig.parent);
        self.link(twig.parent, node);
        self.link(node, behind);
        self.last.set(node, node);
        self.twigs.set(node, Twig { size: 1, ..twig });
        self.bonds.set(node, bond);
        self.potentials.set(node, potential);
    }

    /// Counts the subtrees and finds their last nodes, children before their parents.
    pub(crate) fn measure(&mut self) {
        let mut node = self.previous.at(self.root);
        for _ in 0..self.root {
            let size = self.twigs.at(node).size;
            let parent = self.twigs.at(node).parent;
            let above = self.twigs.at(parent);
            let size = above.size.wrapping_add(size);
            self.twigs.set(parent, Twig { size, ..above });
            if self.last.at(parent) == parent {
                let last = self.last.at(node);
                self.last.set(parent, last);
            }
            node = self.previous.at(node);
        }
    }

    fn link(&mut self, node: u32, next: u32) {
        self.next.set(node, next);
        self.previous.set(next, node);
    }

    // ---- the cycle of an entering lane

    /// The cycle that runs down from the join to the first node, over to the second one and up again, with flow for at
    /// most the given room. Of the arcs that stop it, it names the last one on that way: so every node keeps room for
    /// flow to the root, and no tree comes twice.
    pub(crate) fn meet(&self, first: u32, second: u32, room: i64) -> Meeting {
        let (mut a, mut b) = (first, second);
        let (mut least, mut greatest) = (i64::MAX, room);
        let (mut one, mut other) = (NONE, NONE);
        let mut length = 0u64;
        for _ in 0..u64::from(self.root).wrapping_mul(2).wrapping_add(2) {
            if a == b {
                break;
            }
            length = length.wrapping_add(1);
            let (down, up) = (self.twigs.at(a), self.twigs.at(b));
            if down.size < up.size {
                let room = down.flow.wrapping_sub(down.low);
                if room < least {
                    least = room;
                    one = a;
                }
                a = down.parent;
            } else {
                let room = up.high.wrapping_sub(up.flow);
                if room <= greatest {
                    greatest = room;
                    other = b;
                }
                b = up.parent;
            }
        }
        choose(a, (least, one), (greatest, other), length)
    }

    /// Adds flow and size to the nodes from one up to an ancestor, without that.
    pub(crate) fn add_up(&mut self, from: u32, until: u32, flow: i64, size: u32) {
        let mut node = from;
        for _ in 0..self.root {
            if node == until {
                return;
            }
            let twig = self.twigs.at(node);
            self.twigs.set(
                node,
                Twig {
                    flow: twig.flow.wrapping_add(flow),
                    size: twig.size.wrapping_add(size),
                    ..twig
                },
            );
            node = twig.parent;
        }
    }

    // ---- hanging a subtree elsewhere

    /// Takes the leaver's subtree off, turns it so that its node `near` is on top, and hangs that on the node `far`. The
    /// twig and the bond are those of `near`; the sizes above are as they will be.
    pub(crate) fn rehang(&mut self, near: u32, leaver: u32, twig: Twig, bond: Bond) {
        let far = twig.parent;
        let above = self.twigs.at(leaver).parent;
        let before = self.previous.at(leaver);
        let last = self.last.at(leaver);
        let tail = self.turn(near, leaver, twig, bond);
        self.end_path(leaver, near, tail);
        self.end_at(above, last, before);
        let behind = self.next.at(far);
        self.link(far, near);
        self.link(tail, behind);
        self.end_at(far, far, tail);
    }

    /// Turns the path from `near` up to the leaver round, and takes the parts of the list that hang on it out, one
    /// behind the other. The result is the last node of all.
    fn turn(&mut self, near: u32, leaver: u32, twig: Twig, bond: Bond) -> u32 {
        let size = self.twigs.at(leaver).size;
        let (mut node, mut twig, mut bond, mut moved) = (near, twig, bond, 0);
        let (mut tail, mut old_last, mut gap) = (NONE, NONE, NONE);
        for _ in 0..self.root {
            let last = self.last.at(node);
            // Where the part that went before was the end of this subtree, it ends before that part now.
            let end = if last == old_last { gap } else { last };
            gap = self.previous.at(node);
            let behind = self.next.at(end);
            self.link(gap, behind);
            self.link(tail, node);
            (tail, old_last) = (end, last);
            let old = self.twigs.at(node);
            let old_bond = self.bonds.at(node);
            let size = size.wrapping_sub(moved);
            self.twigs.set(node, Twig { size, ..twig });
            self.bonds.set(node, bond);
            if node == leaver {
                break;
            }
            moved = old.size;
            twig = turned(old, node);
            bond = Bond {
                lane: old_bond.lane,
                up: !old_bond.up,
            };
            node = old.parent;
        }
        tail
    }

    /// Ends the subtrees of the nodes from one up to an ancestor at the given node.
    fn end_path(&mut self, from: u32, to: u32, last: u32) {
        let mut node = from;
        for _ in 0..self.root {
            self.last.set(node, last);
            if node == to {
                return;
            }
            node = self.twigs.at(node).parent;
        }
    }

    /// Ends the subtrees of the node and its ancestors at `now`, as long as they ended at `was`.
    fn end_at(&mut self, from: u32, was: u32, now: u32) {
        let mut node = from;
        for _ in 0..=self.root {
            if self.last.at(node) != was {
                return;
            }
            self.last.set(node, now);
            if node == self.root {
                return;
            }
            node = self.twigs.at(node).parent;
        }
    }

    // ---- potentials

    /// Lifts the subtree against all other nodes, by moving whichever are fewer. The result is how many were moved.
    pub(crate) fn lift(&mut self, node: u32, by: i64) -> u64 {
        let size = self.twigs.at(node).size;
        let all = self.root.wrapping_add(1);
        let others = all.wrapping_sub(size);
        if size <= others {
            self.add_along(node, size, by);
            return u64::from(size);
        }
        let behind = self.next.at(self.last.at(node));
        self.add_along(behind, others, minus(by));
        let drift = self.potentials.at(self.root);
        if drift > DRIFT_MOST || drift < -DRIFT_MOST {
            self.add_along(behind, all, minus(drift));
        }
        u64::from(others)
    }

    /// Adds to the potentials of as many nodes, along the list.
    pub(crate) fn add_along(&mut self, from: u32, count: u32, by: i64) {
        let mut node = from;
        for _ in 0..count {
            let potential = self.potentials.at(node).wrapping_add(by);
            self.potentials.set(node, potential);
            node = self.next.at(node);
        }
    }

    /// Lifts all nodes that hang on an artificial arc from the root.
    pub(crate) fn lift_below_root(&mut self, by: i64) {
        let mut node = self.next.at(self.root);
        for _ in 0..self.root {
            let size = self.twigs.at(node).size;
            if !self.bonds.at(node).up {
                self.add_along(node, size, by);
            }
            node = self.next.at(self.last.at(node));
            if node == self.root {
                return;
            }
        }
    }

    /// Whether an artificial arc has flow.
    pub(crate) fn has_artificial_flow(&self) -> bool {
        for node in 0..self.root {
            if self.bonds.at(node).lane == NONE && self.twigs.at(node).flow != 0 {
                return true;
            }
        }
        false
    }
}

/// The twig of a node whose bond has this flow, on this piece, and leads up or not. Its size waits.
pub(crate) fn seen_from(parent: u32, flow: i64, piece: Ends, up: bool) -> Twig {
    let (flow, low, high) = if up {
        (flow, piece.low, piece.high)
    } else {
        (minus(flow), minus(piece.high), minus(piece.low))
    };
    Twig {
        parent,
        size: 1,
        flow,
        low,
        high,
    }
}

/// The twig of a node's parent when the path between them is turned round.
fn turned(twig: Twig, node: u32) -> Twig {
    Twig {
        parent: node,
        size: 0,
        flow: minus(twig.flow),
        low: minus(twig.high),
        high: minus(twig.low),
    }
}

/// What stops a cycle: on a tie the second side goes before the entering lane, and that before the first side.
fn choose(join: u32, one: (i64, u32), other: (i64, u32), length: u64) -> Meeting {
    let (side, amount, leaver) = if one.0 < other.0 {
        (Side::First, one.0, one.1)
    } else if other.1 == NONE {
        (Side::Neither, other.0, NONE)
    } else {
        (Side::Second, other.0, other.1)
    };
    Meeting {
        join,
        amount,
        side,
        leaver,
        length,
    }
}
