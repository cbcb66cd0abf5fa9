//! Which ports of a node are read.
ghost use Rattle.std.specs.Prelude.{◌≡◌, ◌∷◌, []};
ghost use Rattle.plan_readers.specs.Readers.{ports_read};
ghost use Rattle.plan_samples.specs.Examples.{inputs};

/// The ports of three nodes, in the order of the inputs; a port that is read twice stands twice.
pub fn ports_that_are_read()
    ensures first { ports_read 0 inputs ≡ 0 ∷ [] }
    ensures second { ports_read 1 inputs ≡ 0 ∷ 1 ∷ 1 ∷ [] }
    ensures none { ports_read 2 inputs ≡ [] }
{}
