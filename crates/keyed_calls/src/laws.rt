//! Laws of calls, as theorems of functions that do nothing.
ghost use Rattle.std.specs.Prelude.{◌++◌, ◌≡◌, ◌≢◌, ◌≤◌, ◌^◌, [], List, ℕ, length, slice_get};
ghost use Rattle.ps_frame.specs.Functions.{Functions};
ghost use Rattle.ps_frame.specs.Tables.{Table};
ghost use Rattle.ps_frame.specs.Trees.{Tree};
ghost use Rattle.ps_meaning.specs.Schemas.{names_of};
ghost use Rattle.ps_meaning.specs.Shape.{IsPhysicalChoice};
ghost use Rattle.ps_meaning.specs.Sound.{schema_at as schema_there};
ghost use Rattle.ps_plan.specs.Lowering.{HasRowsOf};
ghost use Rattle.ps_rules.specs.Lowered.{lower_exprs};
ghost use Rattle.ps_rules.specs.Slots.{State, Stream, schema_at};
ghost use Rattle.ps_shares.specs.Kept.{IsReady};
ghost use Rattle.plan_rules.specs.Groups.{columns_over};
ghost use Rattle.keyed_calls.specs.Keyed.{KeyedAlike, ShowsOnlyKeyed};

/// A call for all columns of a stream and further expressions answers the columns as themselves, and as many expressions. Behind the table of the answered stream these are alike the asked ones behind the input's, and no new node shows another cause, or is large where none of these is: whether the columns stand first or last.
pub fn calls_are_keyed_alike()
    ensures behind { (F : Functions) (at : ℕ) (i : Stream) (s : State) (keys : List Tree) → schema_at s.nodes i ≢ [] → let es = columns_over i s ++ keys in IsReady s i es → let a = lower_exprs at i es s in a.state.names.next ≤ 2 ^ 64 → (xs : List Tree) × (a.exprs ≡ columns_over i s ++ xs) × (length xs ≡ length keys) × ((tables : ℕ → Table) → IsPhysicalChoice F a.state.nodes tables → HasRowsOf (schema_there (slice_get s.nodes i.0)) (tables i.0) → KeyedAlike at (names_of (schema_at s.nodes i)) keys xs (tables i.0) (tables a.stream.0) × ShowsOnlyKeyed F s.nodes a.state.nodes tables at keys (tables i.0)) }
    ensures before { (F : Functions) (at : ℕ) (i : Stream) (s : State) (keys : List Tree) → schema_at s.nodes i ≢ [] → let es = keys ++ columns_over i s in IsReady s i es → let a = lower_exprs at i es s in a.state.names.next ≤ 2 ^ 64 → (xs : List Tree) × (a.exprs ≡ xs ++ columns_over i s) × (length xs ≡ length keys) × ((tables : ℕ → Table) → IsPhysicalChoice F a.state.nodes tables → HasRowsOf (schema_there (slice_get s.nodes i.0)) (tables i.0) → KeyedAlike at (names_of (schema_at s.nodes i)) keys xs (tables i.0) (tables a.stream.0) × ShowsOnlyKeyed F s.nodes a.state.nodes tables at keys (tables i.0)) }
{}
