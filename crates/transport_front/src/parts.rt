// The parts of a line: its words by place, its names, and the words behind them.
ghost use Rattle.std.specs.Prelude.{◌≡◌};
ghost use Rattle.std.specs.List.{list_all};
ghost use Rattle.model_text.specs.LineParts.{texts};
ghost use Rattle.model_text.specs.ModelText.{word_at};
ghost use Rattle.model_text.specs.Names.{is_name};
ghost use Rattle.transport_front.specs.TableText.{names_of, behind, lacks_names};

use model_text::is_name;

/// The word at that place, or nothing.
pub(crate) fn word<'a>(words: &[&'a [u8]], place: usize) -> &'a [u8]
    ensures { result.now ≡ word_at (texts words.now) place }
{
    match words.get(place) {
        Some(word) => word,
        None => b"",
    }
}

/// Whether one of so many names is missing, or isn't a name.
pub(crate) fn lacks_names(words: &[&[u8]], count: usize) -> bool
    ensures { result ≡ lacks_names count (texts words.now) }
{
    let names = names_of(words, count);
    names.len() < count || !are_names(names)
}

fn are_names(words: &[&[u8]]) -> bool
    ensures { result ≡ list_all (λ word. is_name word.now) words.now }
{
    words.iter().all(|word| is_name(word))
}

/// So many words behind the first one, or all.
fn names_of<'a, 'b>(words: &'b [&'a [u8]], count: usize) -> &'b [&'a [u8]]
    ensures { texts result.now ≡ names_of count (texts words.now) }
{
    match words {
        [_, rest @ ..] => &rest[..count.min(rest.len())],
        [] => &[],
    }
}

/// The words behind the first one and so many more.
pub(crate) fn behind<'a, 'b>(words: &'b [&'a [u8]], count: usize) -> &'b [&'a [u8]]
    ensures { texts result.now ≡ behind count (texts words.now) }
{
    match words {
        [_, rest @ ..] => &rest[count.min(rest.len())..],
        [] => &[],
    }
}
