// Curves whose lists can be read item by item.
ghost use Rattle.std.specs.Prelude.{◌≡◌, ◌+◌, ◌*◌, ◌<◌, ◌≤◌, length};
ghost use Rattle.theory.specs.CurveList.{IsCurveList, Listing, item};
ghost use Rattle.theory.specs.Limits.{AreWithin, number_most, base_most, IsWithin};
ghost use Rattle.theory.specs.Views.{conjugate_of};
ghost use Rattle.mono_curve.specs.PointCosts.{IsFinitePoint, point_cost};

use theory::Ext;

/// A curve list with a base, item by item. These calls are no readings and are not counted.
pub trait Listed {
    ghost listing: { Self → Listing };

    /// How many items the list has, at least one.
    fn len(&self) -> usize
        ensures { result ≡ length (listing self.now).items };

    fn item(&self, i: usize) -> Ext
        requires { i < length (listing self.now).items }
        ensures { result ≡ item (listing self.now).items i };

    fn base(&self) -> i128
        ensures { result ≡ (listing self.now).base };

    /// The cost at a finite point.
    fn cost_here(&self, i: usize) -> i128
        requires { IsFinitePoint (listing self.now).items i }
        ensures { result ≡ point_cost (listing self.now) i };

    ghost is_list: { (c : Self) → IsCurveList (listing c).items };

    ghost items_within: { (c : Self) → AreWithin number_most (listing c).items };

    ghost is_short: { (c : Self) → length (listing c).items ≤ 4 * number_most + 5 };

    ghost base_within: { (c : Self) → IsWithin (2 * base_most) (listing c).base };

    ghost conjugate_base_within: { (c : Self) → IsWithin (2 * base_most) (conjugate_of (listing c)).base };
}
