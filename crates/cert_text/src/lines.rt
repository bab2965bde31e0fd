// Lines of a text, and words at their ends.
ghost use Rattle.std.specs.Prelude.{◌≡◌, ℕ, ◌^◌, ◌≤◌, List, [], ◌∷◌, ◌++◌, length, MatchOption};
ghost use Rattle.cert_text.specs.Candidate.{first_line, after_line, IsPlain, IsFirstDifference};

/// The first line with its LF, and what stands behind it.
pub(crate) fn split_line(text: &[u8]) -> (&[u8], &[u8])
    ensures line { result.0.now ≡ first_line text.now }
    ensures rest { result.1.now ≡ after_line text.now }
{
    match text.iter().position(|byte| *byte == b'\n') {
        Some(end) => text.split_at(end + 1),
        None => (text, &[]),
    }
}

/// The line without its LF.
pub(crate) fn content(line: &[u8]) -> &[u8]
    ensures { (body : List ℕ) → line.now ≡ body ++ 10 ∷ [] → result.now ≡ body }
{
    match line {
        [body @ .., b'\n'] => body,
        _ => line,
    }
}

/// What stands before the last space, and the word behind it.
pub(crate) fn split_last_word(bytes: &[u8]) -> (&[u8], &[u8])
    ensures { (front word : List ℕ) → IsPlain word → bytes.now ≡ front ++ 32 ∷ word
        → (result.0.now ≡ front) × (result.1.now ≡ word) }
{
    for place in (0..bytes.len()).rev() {
        if bytes[place] == b' ' {
            return (&bytes[..place], &bytes[place + 1..]);
        }
    }
    (&[], bytes)
}

/// The line, from 1, at which the two texts begin to differ.
pub(crate) fn first_difference(text: &[u8], other: &[u8]) -> Option<u32>
    requires { length text.now ≤ 2 ^ 26 }
    ensures { MatchOption result (other.now ≡ text.now) (λ line. IsFirstDifference text.now other.now line) }
{
    let mut line = 1;
    for (byte, expected) in text.iter().zip(other) {
        if byte != expected {
            return Some(line);
        }
        if *byte == b'\n' {
            line += 1;
        }
    }
    if text.len() == other.len() {
        None
    } else {
        Some(line)
    }
}
