// A line after the header, by its words.
ghost use Rattle.std.specs.Prelude.{◌≡◌, ◌||◌, IsNone, IfSome, if◌then◌else◌, false, true};
ghost use Rattle.std.specs.List.{list_all};
ghost use Rattle.model_text.specs.ModelText.{is_node_line, is_arc_line, word_at, lacks_names};
ghost use Rattle.model_text.specs.Names.{is_name};
ghost use Rattle.model_text.specs.LineParts.{texts, is_node, keyword_kind, AreParts};

use crate::bytes::are_same;
use crate::name::is_name;

#[derive(Clone, Copy, PartialEq, Eq)]
pub(crate) enum Kind {
    Node,
    Arc,
}

/// A line for a node or an arc: its names, and the part behind them that lists its curve.
#[derive(Drop)]
pub(crate) struct Line<'a> {
    words: &'a [&'a [u8]],
    pub(crate) kind: Kind,
    names: &'a [&'a [u8]],
    pub(crate) part: &'a [&'a [u8]],
    ghost parts: { AreParts (texts words.now) kind (texts names.now) (texts part.now) },
}

impl<'a> Line<'a> {
    pub(crate) fn of(words: &'a [&'a [u8]]) -> Option<Line<'a>>
        ensures words { IfSome result (λ line. line.words.now ≡ words.now) }
        ensures keyword { IsNone result → (is_node_line (texts words.now) || is_arc_line (texts words.now)) ≡ false }
        ensures lines { IfSome result (λ line. (is_node_line (texts words.now) || is_arc_line (texts words.now)) ≡ true) }
    {
        let [keyword, rest @ ..] = words else {
            return None;
        };
        let kind = kind_of(keyword)?;
        let (names, part) = rest.split_at(kind.names_wanted().min(rest.len()));
        Some(Line {
            words,
            kind,
            names,
            part,
        })
    }

    /// The word at that place, or nothing.
    pub(crate) fn word(&self, place: usize) -> &[u8]
        ensures { result.now ≡ word_at (texts self.now.words.now) place }
    {
        match self.words.get(place) {
            Some(word) => word,
            None => b"",
        }
    }

    pub(crate) fn lacks_names(&self) -> bool
        ensures { result ≡ lacks_names (texts self.now.words.now) }
    {
        self.names.len() < self.kind.names_wanted() || !are_names(self.names)
    }
}

fn are_names(words: &[&[u8]]) -> bool
    ensures { result ≡ list_all (λ word. is_name word.now) words.now }
{
    words.iter().all(|word| is_name(word))
}

impl Kind {
    pub(crate) fn is_node(self) -> bool
        ensures { result ≡ is_node self }
    {
        self == Kind::Node
    }

    fn names_wanted(self) -> usize
        ensures { result ≡ (if is_node self then 1 else 3) }
    {
        match self {
            Kind::Node => 1,
            Kind::Arc => 3,
        }
    }
}

fn kind_of(keyword: &[u8]) -> Option<Kind>
    ensures { result ≡ keyword_kind keyword.now }
{
    if are_same(keyword, b"node") {
        Some(Kind::Node)
    } else if are_same(keyword, b"arc") {
        Some(Kind::Arc)
    } else {
        None
    }
}
