// The first tableau of a ring of three arcs and its pivots, worked by hand; the checker computes the definitions.
ghost use Rattle.std.specs.Prelude.{◌≡◌, pos, negsuc, [], ◌∷◌};
ghost use Rattle.theory.specs.Examples.{ring};
ghost use Rattle.tucker_tableau.specs.Pivoted.{pivoted};
ghost use Rattle.tucker_tableau.specs.First.{star, row_by_row};

/// The rows are the ground arcs of p, q and r, the columns the arcs a, b and c. The pivot is on q and a, then again. The
/// row of p has 0 in the column of b.
pub fn ring_of_three()
    ensures first { row_by_row (star ring 3) ≡ pos 1 ∷ pos 0 ∷ negsuc 0 ∷ negsuc 0 ∷ pos 1 ∷ pos 0 ∷ pos 0 ∷ negsuc 0 ∷ pos 1 ∷ [] }
    ensures pivot { row_by_row (pivoted (star ring 3) 1 0) ≡ negsuc 0 ∷ pos 1 ∷ negsuc 0 ∷ negsuc 0 ∷ pos 1 ∷ pos 0 ∷ pos 0 ∷ negsuc 0 ∷ pos 1 ∷ [] }
    ensures again { row_by_row (pivoted (pivoted (star ring 3) 1 0) 1 0) ≡ row_by_row (star ring 3) }
    ensures led { row_by_row (pivoted (pivoted (star ring 3) 1 0) 2 1) ≡ negsuc 0 ∷ negsuc 0 ∷ pos 0 ∷ negsuc 0 ∷ negsuc 0 ∷ pos 1 ∷ pos 0 ∷ negsuc 0 ∷ pos 1 ∷ [] }
    ensures zero { star ring 3 0 1 ≡ pos 0 }
{}
