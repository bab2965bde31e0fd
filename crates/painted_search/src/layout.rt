// Where the words of a room lie in its region.
ghost use Rattle.std.specs.Prelude.{◌≡◌, ◌≤◌, ◌+◌, ◌*◌, [], length};
ghost use Rattle.work_region.specs.Blocks.{IsCarved};
ghost use Rattle.painted_search.specs.Room.{count_most};
ghost use Rattle.painted_search.specs.Laid.{IsLaid, words_for};

use work_region::{Block, Region};

/// The blocks of a room: one behind another, with no word between them or behind them.
#[derive(Drop)]
pub(crate) struct Layout {
    pub(crate) nodes: usize,
    pub(crate) arcs: usize,
    // a flow for each arc
    pub(crate) flows: Block,
    // a label for each node
    pub(crate) labels: Block,
    // a mark for each node
    pub(crate) marks: Block,
    // room for a step for each node
    pub(crate) walk: Block,
    // two words for each node
    pub(crate) queue: Block,
    // the potentials, then the scratch: what is lent lies last
    pub(crate) words: Block,
    ghost laid: { IsLaid nodes arcs flows labels marks walk queue words },
}

impl Layout {
    ghost use Rattle.painted_search.specs.Zeroed.{IsZeroed};

    /// How many words a room has.
    pub(crate) fn words_for(nodes: usize, arcs: usize) -> usize
        requires some_node { 1 ≤ nodes }
        requires few_nodes { nodes ≤ count_most }
        requires few_arcs { arcs ≤ count_most }
        ensures count { result ≡ words_for nodes arcs }
        ensures most { result ≤ 8 * nodes + arcs }
    {
        arcs + 8 * nodes
    }

    /// Carves the blocks.
    pub(crate) fn carve(region: &mut Region, nodes: usize, arcs: usize) -> Layout
        requires some_node { 1 ≤ nodes }
        requires few_nodes { nodes ≤ count_most }
        requires few_arcs { arcs ≤ count_most }
        requires empty { region.old.carved ≡ [] }
        requires enough { region.old.left ≡ words_for nodes arcs }
        ensures nodes { result.nodes ≡ nodes }
        ensures arcs { result.arcs ≡ arcs }
        ensures full { length region.new.carved ≡ words_for nodes arcs }
        ensures zero { IsZeroed region.new result }
    {
        let flows = carved(region, arcs);
        let labels = carved(region, nodes);
        let marks = carved(region, nodes);
        let walk = carved(region, nodes);
        let queue = carved(region, 2 * nodes);
        let words = carved(region, 3 * nodes);
        Layout {
            nodes,
            arcs,
            flows,
            labels,
            marks,
            walk,
            queue,
            words,
        }
    }
}

/// A block where there are words enough.
fn carved(region: &mut Region, len: usize) -> Block
    requires { len ≤ region.old.left }
    ensures { IsCarved region.old region.new len result }
{
    match region.carve(len) {
        Some(block) => block,
        None => unreachable!(),
    }
}
