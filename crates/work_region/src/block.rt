// A block: a part of a region's words, named by where it begins and how long it is.

/// A part of the words of the region that it was carved from. It holds no word itself: the region reads and writes them.
#[derive(Clone, Copy, Drop)]
pub struct Block {
    pub(crate) start: usize,
    pub(crate) len: usize,
}
