// Words that are sizes and prices, or a demand.
ghost use Rattle.std.specs.Prelude.{◌≡◌, ◌%◌, ◌||◌, ◌∷◌, [], pos, map, length, unwrap_or, IfOk, false};
ghost use Rattle.std.specs.List.{list_any};
ghost use Rattle.theory.specs.Sums.{positive_part};
ghost use Rattle.model_text.specs.LineParts.{texts};
ghost use Rattle.model_text.specs.ModelText.{is_over};
ghost use Rattle.model_text.specs.NearNumbers.{near_number};
ghost use Rattle.model_text.specs.NumberWords.{number_of};
ghost use Rattle.transport_front.specs.TableText.{pair_tests, demand_tests, demand_of, lacks_number, numbers, pairs_of, are_wrong_sizes};
ghost use Rattle.transport_front.specs.Table.{has_fall};
ghost use Rattle.transport_front.specs.declared.fault.TableWord.TheVariants.{Number, Limit};
ghost use Rattle.transport_front.specs.Reading.{Passes};

use crate::fault::{Refusal, TableWord};
use crate::pair::Pair;
use crate::table::PAIRS_MOST;
use model_text::number;
use mono_curve::NUMBER_MOST;
use std::alloc::Global;

/// The pairs that the words are.
pub(crate) fn pairs_of(alloc: Global, words: &[&[u8]]) -> Result<Vec<Pair>, Refusal>
    ensures tests { Passes (pair_tests (texts words.now)) result }
    ensures pairs { IfOk result (λ pairs. pairs.items ≡ pairs_of (numbers (texts words.now))) }
{
    let listed = numbers_of(alloc, words)?;
    if listed.is_empty() || listed.len() % 2 == 1 {
        return Err(Refusal::Fault(TableWord::Number));
    }
    if are_over(&listed) || listed.len() / 2 > PAIRS_MOST {
        return Err(Refusal::Fault(TableWord::Limit));
    }
    paired(alloc, &listed)
}

/// The numbers that the words are. One beyond the limit comes as the first number beyond it.
fn numbers_of(alloc: Global, words: &[&[u8]]) -> Result<Vec<i64>, Refusal>
    ensures tests { Passes ((lacks_number (texts words.now), Number) ∷ []) result }
    ensures numbers { IfOk result (λ listed. listed.items ≡ map near_number (numbers (texts words.now))) }
{
    let Ok(mut listed) = Vec::with_capacity(alloc, words.len().max(1)) else {
        return Err(Refusal::NoMemory);
    };
    for word in words {
        let Some(number) = number(word, 0) else {
            return Err(Refusal::Fault(TableWord::Number));
        };
        listed.push_reserved(number);
    }
    Ok(listed)
}

/// Two numbers at a time, where the sizes are right.
fn paired(alloc: Global, listed: &[i64]) -> Result<Vec<Pair>, Refusal>
    requires { list_any is_over listed.now ≡ false }
    ensures tests { Passes ((are_wrong_sizes (pairs_of listed.now), Limit) ∷ []) result }
    ensures pairs { IfOk result (λ pairs. pairs.items ≡ pairs_of listed.now) }
{
    let mut pairs = Vec::new(alloc);
    let mut total: u32 = 0;
    let mut rest = listed;
    while let [size, price, after @ ..] = rest {
        if *size < 1 || *size > NUMBER_MOST - i64::from(total) {
            return Err(Refusal::Fault(TableWord::Limit));
        }
        let pair = Pair {
            size: *size as u32,
            price: *price,
        };
        total += pair.size;
        match pairs.push(pair) {
            Ok(()) => rest = after,
            Err(_) => return Err(Refusal::NoMemory),
        }
    }
    Ok(pairs)
}

/// The one number that the words are.
pub(crate) fn demand_of(words: &[&[u8]]) -> Result<u32, Refusal>
    ensures tests { Passes (demand_tests (texts words.now)) result }
    ensures demand { IfOk result (λ demand. demand ≡ positive_part (demand_of (texts words.now))) }
{
    let [word] = words else {
        return Err(Refusal::Fault(TableWord::Number));
    };
    let Some(demand) = number(word, 0) else {
        return Err(Refusal::Fault(TableWord::Number));
    };
    if is_over(demand) || demand < 0 {
        return Err(Refusal::Fault(TableWord::Limit));
    }
    Ok(demand as u32)
}

fn are_over(numbers: &[i64]) -> bool
    ensures { result ≡ list_any is_over numbers.now }
{
    numbers.iter().any(|number| is_over(*number))
}

fn is_over(number: i64) -> bool
    ensures { result ≡ is_over number }
{
    number.unsigned_abs() > NUMBER_MOST as u64
}

/// Whether a price isn't above the price before it.
pub(crate) fn has_fall(pairs: &[Pair]) -> bool
    ensures { result ≡ has_fall pairs.now }
{
    pairs
        .iter()
        .zip(pairs.iter().skip(1))
        .any(|(lower, higher)| !(lower.price < higher.price))
}
