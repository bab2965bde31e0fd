// A law of readings that is no part of a reading's own contract.
ghost use Rattle.theory.specs.ReadingLaws.{SlopesOfPiecesLaw};

/// The slopes at a flow are those of the pieces on its two sides. There is none on the left of the
/// first point, and none on the right of the last.
pub fn slopes_of_pieces()
    ensures { SlopesOfPiecesLaw }
{}
