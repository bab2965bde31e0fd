// Numbers at the ends of lines.
ghost use Rattle.std.specs.Prelude.{◌≡◌, ℕ, ◌^◌, ◌≤◌, ℤ};
ghost use Rattle.theory.specs.Limits.{IsWithin, flow_most, sum_most};
ghost use Rattle.model_text.specs.Printed.{printed_fixed, printed_units};
ghost use Rattle.cert_text.specs.Candidate.{IsLastNumber, AreLastNumbers};

use crate::certificate::SUM_MOST;
use crate::lines::{content, split_last_word};
use mono_curve::FLOW_MOST;

/// The cost, value, capacity or span at the end of the line.
pub(crate) fn last_sum(line: &[u8]) -> i128
    ensures { IsLastNumber sum_most line.now result }
{
    number_of(split_last_word(content(line)).1, SUM_MOST as u128)
}

/// The flow at the end of the line.
pub(crate) fn last_flow(line: &[u8]) -> i64
    ensures { IsLastNumber flow_most line.now result }
{
    number_of(split_last_word(content(line)).1, FLOW_MOST as u128) as i64
}

/// The potential and the flow at the end of the line.
pub(crate) fn last_pair(line: &[u8]) -> (i64, i64)
    ensures { AreLastNumbers line.now result.0 result.1 }
{
    let (front, flow) = split_last_word(content(line));
    let (_, potential) = split_last_word(front);
    (
        number_of(potential, FLOW_MOST as u128) as i64,
        number_of(flow, FLOW_MOST as u128) as i64,
    )
}

/// The number that the word is the printed form of, with any decimals; some number within the limit for any other word.
fn number_of(word: &[u8], most: u128) -> i128
    requires { most ≤ 10 ^ 30 }
    ensures within { IsWithin most result }
    ensures found { (decimals : ℕ) (z : ℤ) → IsWithin most z → word.now ≡ printed_fixed decimals z → result ≡ z }
{
    match word {
        [b'-', digits @ ..] => -(magnitude(digits, most) as i128),
        _ => magnitude(word, most) as i128,
    }
}

/// The units that the digits write, wherever the point is.
fn magnitude(digits: &[u8], most: u128) -> u128
    requires { most ≤ 10 ^ 30 }
    ensures within { result ≤ most }
    ensures found { (decimals n : ℕ) → n ≤ most → digits.now ≡ printed_units decimals n → result ≡ n }
{
    let mut value: u128 = 0;
    for digit in digits {
        if *digit == b'.' {
            continue;
        }
        if value > most || !digit.is_ascii_digit() {
            return 0;
        }
        value = 10 * value + u128::from(*digit - b'0');
    }
    value.min(most)
}
