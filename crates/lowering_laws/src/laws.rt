//! Laws of lowering, as theorems of functions that do nothing.
ghost use Rattle.std.specs.Prelude.{◌<◌, ◌^◌, ℕ, List};
ghost use Rattle.pu_base.specs.declared.arena.Node.{Node};
ghost use Rattle.ps_frame.specs.Functions.{Functions};
ghost use Rattle.ps_frame.specs.Trees.{Tree};
ghost use Rattle.ps_meaning.specs.Steps.{Named, exprs_of, key_trees, named_trees};
ghost use Rattle.ps_meaning.specs.declared.options.ExprIR.{ExprIR};
ghost use Rattle.ps_rules.specs.Slots.{State, Stream};
ghost use Rattle.ps_shares.specs.Kept.{IsReady};
ghost use Rattle.lowering_laws.specs.Kept.{KeepsExprs, KeepsSelect, LeavesExprs, LeavesStream, names_asked};

/// Where a call leaves what the rules say and the counter of names is in 64 bits, what it answers stands for what was
/// asked. The first is a clause of `lower_exprs` and of `build_select_stream` in `expr_lowering`; the second one of
/// `NameSource::counter`.
pub fn calls_keep_what_was_asked()
    ensures exprs { (F : Functions) (f : Node → Tree) (at : ℕ) (input : Stream) (before after : State) (asked : List ExprIR) (answered : List Named) (stream : Stream) → LeavesExprs at input before after (names_asked asked) (key_trees f asked) answered stream → after.names.next < 2 ^ 64 → IsReady before input (key_trees f asked) → KeepsExprs F at before after input (named_trees f asked) answered stream }
    ensures selects { (F : Functions) (at : ℕ) (input : Stream) (before after : State) (asked : List Named) (stream : Stream) → LeavesStream at input before after asked stream → after.names.next < 2 ^ 64 → IsReady before input (exprs_of asked) → KeepsSelect F at before after input asked stream }
{}
