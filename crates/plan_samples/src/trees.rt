//! Trees of a plan, and the numbers of their nodes.
ghost use Rattle.std.specs.Prelude.{◌≡◌, ◌⊎◌};
ghost use Rattle.plan_keeps.specs.Kept.{HasNumber, IsNumberedApart, IsPartOf, number_of};
ghost use Rattle.plan_samples.specs.Examples.{leaf, middle, whole};

/// The number of a tree is that of its root; each node below has its own.
pub fn numbers_in_trees()
    ensures root { number_of whole ≡ 4 }
    ensures below { HasNumber 0 whole }
    ensures other { ¬ HasNumber 3 whole }
    ensures part { IsPartOf leaf whole }
    ensures above { ¬ IsPartOf whole leaf }
    ensures apart { IsNumberedApart whole }
{}
