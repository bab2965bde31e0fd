// The names of a network's parts. Nodes and arcs are known by their numbers, from 0.

/// A node's number.
#[derive(Clone, Copy, PartialEq, Eq, PartialOrd, Ord, Debug)]
pub struct NodeId(pub u32);

/// An arc's number.
#[derive(Clone, Copy, PartialEq, Eq, PartialOrd, Ord, Debug)]
pub struct ArcId(pub u32);

/// An arc: the node that it leaves and the node that it enters.
#[derive(Clone, Copy, PartialEq, Eq, Debug)]
pub struct Arc {
    pub from: NodeId,
    pub to: NodeId,
}

/// A step of a walk: over an arc, along its direction or against it.
#[derive(Clone, Copy, PartialEq, Eq, Debug)]
pub struct Step {
    pub arc: ArcId,
    pub forward: bool,
}
