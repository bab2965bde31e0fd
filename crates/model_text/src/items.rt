// The items of a list and how they stand.
ghost use Rattle.std.specs.Prelude.{◌≡◌, ◌&&◌, ◌||◌, ◌==◌, not, ◌%◌, length, drop};
ghost use Rattle.std.specs.List.{list_any, zip};
ghost use Rattle.theory.specs.Ends.{whole, is_below, is_finite};
ghost use Rattle.theory.specs.CurveList.{item};
ghost use Rattle.model_text.specs.ModelText.{are_over, is_over, has_fall, is_misplaced, is_minus_inf, is_plus_inf};

use mono_curve::NUMBER_MOST;
use theory::Ext;

/// Whether an item is a number beyond the limit.
pub(crate) fn are_over(items: &[Ext]) -> bool
    ensures { result ≡ are_over items.now }
{
    items.iter().any(|item| is_item_over(*item))
}

fn is_item_over(item: Ext) -> bool
    ensures { result ≡ is_over (whole item) }
{
    match item {
        Ext::At(number) => is_over(number),
        Ext::MinusInf | Ext::PlusInf => false,
    }
}

pub(crate) fn is_over(number: i64) -> bool
    ensures { result ≡ is_over number }
{
    number.unsigned_abs() > NUMBER_MOST as u64
}

/// Whether an infinity stands elsewhere than minus infinity in front and plus infinity at the end.
pub(crate) fn is_misplaced(items: &[Ext]) -> bool
    ensures { result ≡ is_misplaced items.now }
{
    match items {
        [] => false,
        [_, after @ ..] => has_minus_inf(after) || has_plus_inf(&items[..items.len() - 1]),
    }
}

fn has_minus_inf(items: &[Ext]) -> bool
    ensures { result ≡ list_any is_minus_inf items.now }
{
    items.iter().any(|item| matches!(item, Ext::MinusInf))
}

fn has_plus_inf(items: &[Ext]) -> bool
    ensures { result ≡ list_any is_plus_inf items.now }
{
    items.iter().any(|item| matches!(item, Ext::PlusInf))
}

/// Whether the list is one infinite item.
pub(crate) fn is_infinite_point(items: &[Ext]) -> bool
    ensures { result ≡ ((length items.now == 1) && not (is_finite (item items.now 0))) }
{
    matches!(items, [Ext::MinusInf | Ext::PlusInf])
}

/// Whether an item isn't above the item two places before it.
#[tactic(auto, unfolding(crate::specs::ModelText::has_fall))]
pub(crate) fn has_fall(items: &[Ext]) -> bool
    ensures { result ≡ has_fall items.now }
{
    items
        .iter()
        .zip(items.iter().skip(2))
        .any(|(low, high)| !is_below(*low, *high))
}

fn is_below(low: Ext, high: Ext) -> bool
    ensures { result ≡ is_below low high }
{
    low < high
}
