//! Laws of what is put together from reductions, as theorems of functions that do nothing.
ghost use Rattle.std.specs.Prelude.{◌≡◌, flat_map, true, Contains, List, ℕ};
ghost use Rattle.ps_frame.specs.Causes.{column_causes};
ghost use Rattle.ps_frame.specs.Eval.{eval};
ghost use Rattle.ps_frame.specs.Tables.{Table};
ghost use Rattle.ps_frame.specs.Trees.{Tree};
ghost use Rattle.ps_meaning.specs.Steps.{Named, exprs_of};
ghost use Rattle.ps_rules.specs.Names.{Names};
ghost use Rattle.ps_shares.specs.Kept.{HasNoOther};
ghost use Rattle.plan_rules.specs.Reductions.{is_made_of_reductions, split_aggregates};
ghost use Rattle.reductions_keep.specs.Reduced.{IsSingle, reductions_in};

/// Over any table it has one cell, or a fault ended it before that.
pub fn reductions_give_one_cell()
    ensures { (at : ℕ) (T : Table) (e : Tree) → is_made_of_reductions e ≡ true → IsSingle (eval at T e) }
{}

/// Each cause that a reduction in it shows is one of its own.
pub fn reductions_show_through()
    ensures { (at : ℕ) (T : Table) (e : Tree) → is_made_of_reductions e ≡ true → (r : Tree) → Contains (reductions_in e) r → HasNoOther (column_causes (eval at T r)) (column_causes (eval at T e)) }
{}

/// Aggregates are taken apart into the reductions in them, in order, each as often as it stands there.
pub fn reductions_are_taken_in_order()
    ensures { (aggregates : List Named) (names : Names) → exprs_of (split_aggregates aggregates names).reductions ≡ flat_map reductions_in (exprs_of aggregates) }
{}
