// Words that are numbers, and words that are items of a list.
ghost use Rattle.std.specs.Prelude.{◌≡◌, ◌≤◌, ◌+◌, ◌++◌, IfSome, if◌then◌else◌, Some, None, length};
ghost use Rattle.std.specs.Option.{option_map};
ghost use Rattle.std.specs.Str.{all_ascii_digits};
ghost use Rattle.theory.specs.Limits.{number_most};
ghost use Rattle.model_text.specs.NumberWords.{units_of, fixed_of, item_of, ends_wrong};
ghost use Rattle.model_text.specs.NearNumbers.{near_digits, near_after, near_units, near_number, near_item};

use crate::bytes::{are_same, cut};
use mono_curve::NUMBER_MOST;
use theory::Ext;

/// The first number beyond the limit of a model, which stands for all that are greater.
const BEYOND: u64 = NUMBER_MOST as u64 + 1;

/// The most decimals that a number has: those of a base.
const ZEROS: &[u8; 12] = b"000000000000";

/// The item that a word is: an infinity or a number with at most so many decimals.
pub(crate) fn item(word: &[u8], decimals: u8) -> Option<Ext>
    requires { decimals ≤ 12 }
    ensures { result ≡ option_map near_item (item_of decimals word.now) }
{
    if are_same(word, b"-inf") {
        Some(Ext::MinusInf)
    } else if are_same(word, b"+inf") || are_same(word, b"inf") {
        Some(Ext::PlusInf)
    } else {
        number(word, decimals).map(|number| Ext::At(number))
    }
}

/// The number that a word is, in units of its last decimal. It may have any count of digits before its point. One beyond
/// the limit comes as the first number beyond it.
pub fn number(word: &[u8], decimals: u8) -> Option<i64>
    requires { decimals ≤ 12 }
    ensures { result ≡ option_map near_number (fixed_of decimals word.now) }
{
    match word {
        [b'-', digits @ ..] => Some(-(magnitude(digits, decimals)? as i64)),
        [b'+', digits @ ..] => Some(magnitude(digits, decimals)? as i64),
        [_, ..] => Some(magnitude(word, decimals)? as i64),
        [] => None,
    }
}

/// Digits before a point and behind it, and then zeros for the decimals that aren't written.
fn magnitude(word: &[u8], decimals: u8) -> Option<u64>
    requires { decimals ≤ 12 }
    ensures is { result ≡ option_map near_digits (units_of decimals word.now) }
    ensures most { IfSome result (λ units. units ≤ number_most + 1) }
{
    let (whole, further) = cut(word, b'.');
    if whole.is_empty() {
        return None;
    }
    if has_wrong_end(word, whole, further, decimals) {
        return None;
    }
    units(whole, further, &ZEROS[..decimals as usize - further.len()])
}

/// The number that the digits of three parts write.
fn units(whole: &[u8], further: &[u8], zeros: &[u8]) -> Option<u64>
    ensures is { result ≡ near_units (whole.now ++ further.now ++ zeros.now) }
    ensures most { IfSome result (λ units. units ≤ number_most + 1) }
{
    let value = more_digits(0, whole)?;
    let value = more_digits(value, further)?;
    more_digits(value, zeros)
}

/// Whether a point stands there, but not with 1 to so many bytes behind it.
fn has_wrong_end(word: &[u8], whole: &[u8], further: &[u8], decimals: u8) -> bool
    ensures { result ≡ ends_wrong decimals (length whole.now) (length further.now) (length word.now) }
{
    whole.len() < word.len() && (further.is_empty() || further.len() > decimals as usize)
}

/// The number that the digits write when they follow those of another.
fn more_digits(before: u64, digits: &[u8]) -> Option<u64>
    requires { before ≤ number_most + 1 }
    ensures is { result ≡ (if all_ascii_digits digits.now then Some (near_after before digits.now) else None) }
    ensures most { IfSome result (λ value. value ≤ number_most + 1) }
{
    let mut value = before;
    for digit in digits {
        if !digit.is_ascii_digit() {
            return None;
        }
        value = (10 * value + u64::from(*digit - b'0')).min(BEYOND);
    }
    Some(value)
}
