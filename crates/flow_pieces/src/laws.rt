// The law of pieces. The function does nothing: its contract is the law.

ghost use Rattle.flow_pieces.specs.PiecesLaws.{PiecesLaw};

/// The pieces of a flow add up to it on every arc, are no more than the arcs that carry something, and none goes against it.
pub fn sum_of_pieces()
    ensures { PiecesLaw }
{}
