//! Plans of covered steps, as theorems of functions that do nothing.
ghost use Rattle.std.specs.Prelude.{None};
ghost use Rattle.ps_frame.specs.Functions.{Functions};
ghost use Rattle.ps_meaning.specs.Steps.{filter};
ghost use Rattle.ps_meaning.specs.declared.options.JoinType.TheVariants as how;
ghost use Rattle.ps_rules.specs.Worked.{a_above_one, col_b};
ghost use Rattle.plan_rules.specs.Worked.{both_sunk, cached_again, joined_to_a, sunk};
ghost use Rattle.arena_keeps.specs.Covered.{IsCovered};

/// A filter by a number, a cache over a filter over a cache, and a join by keys.
pub fn covered_plans()
    ensures filtered { (F : Functions) → IsCovered F (sunk (filter a_above_one)) }
    ensures cached { (F : Functions) → IsCovered F cached_again }
    ensures joined { (F : Functions) → IsCovered F (both_sunk (joined_to_a how.Inner col_b None)) }
{}
