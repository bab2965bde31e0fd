// Numbers and ends of the opposite sign.
ghost use Rattle.std.specs.Prelude.{◌≡◌, neg_ℤ};
ghost use Rattle.theory.specs.Ends.{negated, whole};
ghost use Rattle.theory.specs.Limits.{number_most, arg_most, IsWithin};

use theory::Ext;

/// The opposite of a flow or tension that a curve may be read at.
pub fn opposite(number: i64) -> i64
    requires { IsWithin arg_most number }
    ensures value { result ≡ neg_ℤ number }
    ensures within { IsWithin arg_most result }
{
    -number
}

/// The end of the opposite sign.
pub fn opposite_end(end: Ext) -> Ext
    requires { IsWithin number_most (whole end) }
    ensures { result ≡ negated end }
{
    match end {
        Ext::MinusInf => Ext::PlusInf,
        Ext::At(a) => Ext::At(-a),
        Ext::PlusInf => Ext::MinusInf,
    }
}

/// The ends of a range, turned round.
pub fn opposite_ends(low: Ext, high: Ext) -> (Ext, Ext)
    requires low { IsWithin number_most (whole low) }
    requires high { IsWithin number_most (whole high) }
    ensures low { result.0 ≡ negated high }
    ensures high { result.1 ≡ negated low }
{
    (opposite_end(high), opposite_end(low))
}
