//! The kinds of nodes in trials.
ghost use Rattle.std.specs.Prelude.{◌≡◌};
ghost use Rattle.std.specs.List.{list_all};
ghost use Rattle.graph_trials.specs.Trying.{is_link};

/// A source that is spent or not, a filter, a map over its whole input that has nothing to give (it is done or not), a union of
/// one input, a node that takes its whole input before it gives anything, and a sink.
#[derive(Clone, Copy, Debug, PartialEq, Eq)]
pub enum Kind {
    Source(bool),
    Filter,
    Map(bool),
    Union,
    Taker,
    Sink,
}

impl Kind {
    /// Whether a node of the kind has one input and one reader.
    fn is_link(self) -> bool
        ensures { result ≡ is_link self }
    {
        !matches!(self, Kind::Source(_) | Kind::Sink)
    }
}

/// Whether nodes of all of these kinds have one input and one reader.
pub fn are_links(kinds: &[Kind]) -> bool
    ensures { result ≡ list_all is_link kinds.now }
{
    kinds.iter().all(|kind| kind.is_link())
}
