//! Worked caches, as theorems of functions that do nothing.
ghost use Rattle.std.specs.Prelude.{◌≡◌, ◌∷◌, [], None, Some};
ghost use Rattle.pu_base.specs.declared.arena.Node.{Node};
ghost use Rattle.ps_frame.specs.Functions.{Functions};
ghost use Rattle.ps_plan.specs.declared.ir.IR.TheVariants as entry;
ghost use Rattle.ps_multiplexers.specs.Examples.{read_twice, unions};
ghost use Rattle.ps_rules.specs.Names.{Names};
ghost use Rattle.plan_rules.specs.Worked.{ab, scanned};
ghost use Rattle.plan_lowering.specs.Examples.{seven_at_three};
ghost use Rattle.plan_lowering.specs.Few.{inputs_in_all};
ghost use Rattle.plan_lowering.specs.Lowered.{cache_in, cache_over};

/// An id that has a stream keeps it, and another one gets that of its input, as the first cache of that id.
pub fn cache_ids()
    ensures kept { (F : Functions) (names : Names) → (cache_over F 7 scanned (seven_at_three names)).stream ≡ (3, 0) }
    ensures nothing_made { (F : Functions) (names : Names) → (cache_over F 7 scanned (seven_at_three names)).progress ≡ seven_at_three names }
    ensures another { (F : Functions) (names : Names) → (cache_over F 8 scanned (seven_at_three names)).stream ≡ (0, 0) }
    ensures noted { (F : Functions) (names : Names) → (cache_over F 8 scanned (seven_at_three names)).progress.cached ≡ record { id = 8; input = scanned; from = 0 } ∷ (seven_at_three names).cached }
{}

/// Which entries are caches.
pub fn entries()
    ensures cache { (input : Node) → cache_in (entry.Cache input 7 2) ≡ Some (input, 7) }
    ensures scan { cache_in (entry.DataFrameScan ab None) ≡ None }
{}

/// How many streams nodes read: each counts as often as it is read, whether or not the root reaches its reader.
pub fn inputs()
    ensures each_time { inputs_in_all unions ≡ 5 }
    ensures not_reached { inputs_in_all read_twice ≡ 5 }
    ensures nothing { inputs_in_all [] ≡ 0 }
{}
