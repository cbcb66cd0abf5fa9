//! The map of a streamable function.
ghost use Rattle.std.specs.Prelude.{◌≡◌};
ghost use Rattle.ps_meaning.specs.Shape.{stream_map};
ghost use Rattle.ps_meaning.specs.Steps.{user};
ghost use Rattle.plain_nodes.specs.Seen.{IsNew};
ghost use Rattle.plain_nodes.specs.Plain as plain;

/// Gives what the caller's function of a number answers to each part of its input.
#[derive(Clone, Copy, Debug, PartialEq, Eq)]
pub struct MapNode {
    pub(crate) function: usize,
}

impl MapNode {
    /// The map of the function of this number.
    pub fn new(function: usize) -> MapNode
        ensures { IsNew (stream_map (user function)) (plain.map result) }
    {
        MapNode { function }
    }

    /// The number of the function.
    pub fn function(&self) -> usize
        ensures { result ≡ self.now.function }
    {
        self.function
    }
}
