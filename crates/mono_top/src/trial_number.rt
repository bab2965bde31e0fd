// The number of a trial, as a word.
ghost use Rattle.std.specs.Prelude.{◌≡◌, true};
ghost use Rattle.std.specs.Char.{is_ascii_digit};
ghost use Rattle.std.specs.List.{list_all};
ghost use Rattle.model_text.specs.NumberWords.{digits_of};
ghost use Rattle.mono_top.specs.TrialNumber.{fitting, trial_number};

/// The greatest number of digits of a trial's number.
const DIGITS_MOST: usize = 20;

/// The word as a number, without a sign; leading zeros are digits.
#[tactic(auto, using(crate::proofs::NumberLemmas::too_long, crate::proofs::NumberLemmas::no_digits, crate::proofs::NumberLemmas::short_enough))]
pub(crate) fn trial_number(word: &str) -> Option<u64>
    ensures { result ≡ trial_number word.now }
{
    if word.len() > DIGITS_MOST {
        return None;
    }
    if !are_digits(word) {
        return None;
    }
    number_of(word)
}

fn are_digits(word: &str) -> bool
    ensures { result ≡ list_all is_ascii_digit word.now }
{
    word.as_bytes().iter().all(|byte| byte.is_ascii_digit())
}

fn number_of(digits: &str) -> Option<u64>
    requires { list_all is_ascii_digit digits.now ≡ true }
    ensures { result ≡ fitting (digits_of digits.now) }
{
    digits.parse::<u64>().ok()
}
