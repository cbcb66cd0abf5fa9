// Worked examples, as theorems of a function that does nothing.
ghost use Rattle.std.specs.Prelude.{◌≡◌, None, Some, codes};
ghost use Rattle.text_plans.specs.Examples.{its_plan, joined_and_filtered, of_unknown_tables, two_tables};
ghost use Rattle.text_plans.specs.QueryPlans.{first_unknown, query_tables, query_tree};

/// What the definitions give of small queries.
pub fn worked_examples()
    ensures plan { query_tree two_tables joined_and_filtered ≡ Some its_plan }
    ensures all_known { first_unknown two_tables (query_tables joined_and_filtered) ≡ None }
    ensures no_plan { query_tree two_tables of_unknown_tables ≡ None }
    ensures first_unknown { first_unknown two_tables (query_tables of_unknown_tables) ≡ Some (codes "v") }
{}
