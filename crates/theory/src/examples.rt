// Worked examples of the definitions. The values were found by hand; the checker computes the definitions.

ghost use Rattle.std.specs.Prelude.{◌≡◌, pos, negsuc, true, false, [], ◌∷◌, map};
ghost use Rattle.theory.specs.declared.ext.Ext.{Ext as Item};
ghost use Rattle.theory.specs.CurveList.{Listing};
ghost use Rattle.theory.specs.Network.{«at»};
ghost use Rattle.theory.specs.OnCurve.{IsOnCurve};
ghost use Rattle.theory.specs.Views.{conjugate_of, reversed_items, zero_cost_items, level_items};
ghost use Rattle.theory.specs.Totals.{total_cost, total_value};
ghost use Rattle.theory.specs.Cut.{cut_sum};
ghost use Rattle.theory.specs.Circuit.{span_sum};
ghost use Rattle.theory.specs.Certificate.{IsValid};
ghost use Rattle.theory.specs.Certificate.Certificate.{optimal, cut, circuit};
ghost use Rattle.theory.specs.Tucker.{passing, IsCircuitOf};
ghost use Rattle.theory.specs.Examples.{listed, two_slopes, half_line, full_line, with_base, uneven, ordinary, one_certificate_only, too_narrow, just_wide_enough, there_and_back, forward_over, full_horizontal_line, ring, over_ground};

/// The flow 5 over the arc costs 2 * 4 + 5 * 1; the value is 5 * 5 less the conjugate cost 12.
pub fn ordinary_model()
    ensures cost { total_cost 1 ordinary («at» (pos 5 ∷ negsuc 4 ∷ pos 5 ∷ [])) ≡ pos 13 }
    ensures value { total_value 1 ordinary («at» (pos 0 ∷ pos 0 ∷ pos 5 ∷ [])) ≡ pos 13 }
    ensures valid { IsValid ordinary (optimal (pos 5 ∷ negsuc 4 ∷ pos 5 ∷ []) (pos 0 ∷ pos 0 ∷ pos 5 ∷ []) (pos 13) (pos 13)) }
{}

/// The potential of s is 2 on its whole supply curve, so the potential of t is 7.
pub fn certificate_of_the_free_supply()
    ensures { IsValid one_certificate_only (optimal (pos 5 ∷ negsuc 4 ∷ pos 5 ∷ []) (pos 0 ∷ pos 2 ∷ pos 7 ∷ []) (pos 23) (pos 23)) }
{}

/// The arc out of s carries 3 at most and the supply brings 5: the sum is 3 - 5. With supply 3 it is 0, which is no cut.
pub fn cuts()
    ensures negative { IsValid too_narrow (cut (false ∷ true ∷ false ∷ []) (negsuc 1)) }
    ensures with_ground { IsValid too_narrow (cut (true ∷ true ∷ false ∷ []) (negsuc 1)) }
    ensures zero { cut_sum just_wide_enough (false ∷ true ∷ false ∷ []) ≡ pos 0 }
{}

/// Round the two arcs the upper span ends are -3 and 1. At 2 and -2 their sum is 0, which refuses nothing.
pub fn circuits()
    ensures negative { IsValid (there_and_back (negsuc 2) (pos 1))
        (circuit (pos 0 ∷ pos 0 ∷ pos 0 ∷ pos 0 ∷ []) (forward_over 2 ∷ forward_over 3 ∷ []) (negsuc 1)) }
    ensures zero { span_sum (there_and_back (pos 2) (negsuc 1)) (forward_over 2 ∷ forward_over 3 ∷ []) ≡ pos 0 }
{}

/// A supply of any size at the potential 3 and no arc: flow 0, potential 3.
pub fn full_line_of_supply()
    ensures { IsValid full_horizontal_line (optimal (pos 0 ∷ []) (pos 0 ∷ pos 3 ∷ []) (pos 0) (pos 0)) }
{}

/// At the breakpoint 4 the tensions 2 to 5 are on the curve, and 1 and 6 are off it.
pub fn corner()
    ensures low { IsOnCurve 1 two_slopes (pos 4) (pos 2) }
    ensures inner { IsOnCurve 1 two_slopes (pos 4) (pos 3) }
    ensures next { IsOnCurve 1 two_slopes (pos 4) (pos 4) }
    ensures high { IsOnCurve 1 two_slopes (pos 4) (pos 5) }
    ensures under { IsOnCurve 1 two_slopes (pos 4) (pos 1) → ⊥ }
    ensures over { IsOnCurve 1 two_slopes (pos 4) (pos 6) → ⊥ }
{}

/// Five curves and their conjugates, with their bases.
pub fn conjugates()
    ensures two_slopes { conjugate_of (listed two_slopes) ≡ listed (Item.MinusInf ∷ Item.At (pos 0) ∷ Item.At (pos 2) ∷ Item.At (pos 4) ∷ Item.At (pos 5) ∷ Item.At (pos 10) ∷ Item.PlusInf ∷ []) }
    ensures point { conjugate_of (listed (Item.At (pos 5) ∷ [])) ≡ listed (Item.MinusInf ∷ Item.At (pos 5) ∷ Item.PlusInf ∷ []) }
    ensures half_line { conjugate_of (listed half_line) ≡ listed (Item.MinusInf ∷ Item.At (negsuc 3) ∷ Item.At (negsuc 0) ∷ []) }
    ensures full_line { conjugate_of (listed full_line) ≡ listed (Item.At (pos 3) ∷ []) }
    ensures with_base { conjugate_of with_base ≡ record {
      items = Item.MinusInf ∷ Item.At (pos 2) ∷ Item.At (pos 3) ∷ Item.At (pos 6) ∷ Item.PlusInf ∷ [];
      base = negsuc 9;
    } }
{}

/// Levels, a reversed list and a zero-cost list.
pub fn other_views()
    ensures level_2 { level_items 2 two_slopes ≡ Item.At (pos 0) ∷ Item.At (pos 2) ∷ Item.At (pos 1) ∷ Item.At (pos 5) ∷ Item.At (pos 3) ∷ [] }
    ensures level_3 { level_items 3 two_slopes ≡ Item.At (pos 0) ∷ Item.At (pos 5) ∷ Item.At (pos 2) ∷ [] }
    ensures point { level_items 3 (Item.At (pos 5) ∷ []) ≡ Item.At (pos 0) ∷ Item.At (pos 0) ∷ Item.At (pos 1) ∷ [] }
    ensures uneven { level_items 2 uneven ≡ Item.At (negsuc 1) ∷ Item.At (pos 1) ∷ Item.At (negsuc 0) ∷ Item.At (pos 2) ∷ Item.At (pos 2) ∷ [] }
    ensures reversed { reversed_items uneven ≡ Item.At (negsuc 6) ∷ Item.At (negsuc 1) ∷ Item.At (pos 3) ∷ Item.At (negsuc 0) ∷ Item.At (pos 5) ∷ [] }
    ensures zero_cost { zero_cost_items two_slopes ≡ Item.At (pos 0) ∷ Item.At (pos 0) ∷ Item.At (pos 10) ∷ [] }
{}

/// The tree of the ring's three ground arcs. Each arc of the ring closes a circuit over the ground: back from its end
/// and out to its beginning. Its entries are 1 at the ground arc of its beginning, -1 at that of its end, else 0.
pub fn first_tableau()
    ensures circuit_a { IsCircuitOf ring (0 ∷ 1 ∷ 2 ∷ []) 3 (over_ground 3 1 0) }
    ensures circuit_b { IsCircuitOf ring (0 ∷ 1 ∷ 2 ∷ []) 4 (over_ground 4 2 1) }
    ensures circuit_c { IsCircuitOf ring (0 ∷ 1 ∷ 2 ∷ []) 5 (over_ground 5 0 2) }
    ensures column_a { map (passing (over_ground 3 1 0)) (0 ∷ 1 ∷ 2 ∷ []) ≡ pos 1 ∷ negsuc 0 ∷ pos 0 ∷ [] }
    ensures column_b { map (passing (over_ground 4 2 1)) (0 ∷ 1 ∷ 2 ∷ []) ≡ pos 0 ∷ pos 1 ∷ negsuc 0 ∷ [] }
    ensures column_c { map (passing (over_ground 5 0 2)) (0 ∷ 1 ∷ 2 ∷ []) ≡ negsuc 0 ∷ pos 0 ∷ pos 1 ∷ [] }
{}
