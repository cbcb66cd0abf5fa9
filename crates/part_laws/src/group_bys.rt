//! Laws of group-bys by morsels and by lists of keys, as theorems of functions that do nothing.
ghost use Rattle.std.specs.Prelude.{◌≡◌, ◌∷◌, ◌++◌, ◌<◌, ◌⊎◌, [], Contains, IsPermutation, List, Option, Some, flat_map, length, slice_get, ℕ};
ghost use Rattle.std.specs.List.{AllByRecursion, AllZip};
ghost use Rattle.ps_frame.specs.Aggregates.{max_rows};
ghost use Rattle.ps_frame.specs.Causes.{Cause};
ghost use Rattle.ps_frame.specs.Functions.{Functions};
ghost use Rattle.ps_frame.specs.Tables.{Fields, Row, Table};
ghost use Rattle.ps_frame.specs.Trees.{Tree};
ghost use Rattle.ps_meaning.specs.Cases.{keyed, rows_table};
ghost use Rattle.ps_meaning.specs.Groups.{groups, keys_of};
ghost use Rattle.ps_meaning.specs.Shape.{PhysicalNode, Shape, group_by_node};
ghost use Rattle.ps_meaning.specs.Sound.{IsSound, input_schemas};
ghost use Rattle.ps_meaning.specs.Steps.{Named, exprs_of};
ghost use Rattle.ps_turns.specs.Claims.{taken_rows};
ghost use Rattle.ps_turns.specs.Keys.{IsSplit, part_of};
ghost use Rattle.ps_turns.specs.Results.{BreaksPartial, HasTooManyKeys, IsBrokenOver, IsMade, IsPartial};
ghost use Rattle.part_laws.specs.Parts.{IsShownOver, ShowsParts};
ghost use Rattle.part_laws.specs.Lists.{BeginsWith, GivesList, end_to_end, rows_of_list};

/// For each split of the distinct keys into lists, in whatever order, the groups of the lists' rows are, list after list, the groups of all rows in some order.
pub fn lists_have_all_groups()
    ensures { (node : ℕ) (aggregates : List Tree) (s : Fields) (rows : List Row) (lists : List (List Row)) → IsPermutation (keys_of (length s) rows) (end_to_end lists) → IsPermutation (groups node aggregates s rows) (flat_map (λ (l : List Row). groups node aggregates s (rows_of_list (length s) l rows)) lists) }
{}

/// Where the rows are whole beside their keys, what the first lists gave begins a table that the node may give over all rows; where no list is left, it is that table, and whole.
pub fn parts_begin_the_whole()
    ensures { (F : Functions) (shape : Shape) (n : ℕ) (p : PhysicalNode) (s : Fields) (keys aggregates : List Named) → IsSound F shape → slice_get shape n ≡ Some p → p.kind ≡ group_by_node keys aggregates → input_schemas shape p ≡ s ∷ [] → (rows : List Row) → (keyed p.origin (exprs_of keys) (rows_table s rows)).broken ≡ []
        → (partitions : ℕ) (given left rss : List (List Row)) → IsSplit p (rows_table s rows ∷ []) partitions (given ++ left) → AllZip (GivesList F p (rows_table s rows ∷ [])) given rss → BeginsWith F p (rows_table s rows ∷ []) left (end_to_end rss) }
{}

/// Where of each morsel there is a partial, all their rows are whole beside their keys.
pub fn partials_are_whole_together()
    ensures morsels { (F : Functions) (shape : Shape) (n : ℕ) (p : PhysicalNode) (s : Fields) (keys aggregates : List Named) → IsSound F shape → slice_get shape n ≡ Some p → p.kind ≡ group_by_node keys aggregates → input_schemas shape p ≡ s ∷ [] → (morsels : List (List Row)) → AllByRecursion (λ (a : List Row). (rs : List Row) × IsMade F p (rows_table s a ∷ []) rs) morsels
        → (keyed p.origin (exprs_of keys) (rows_table s (end_to_end morsels))).broken ≡ [] }
    ensures slots { (F : Functions) (shape : Shape) (n : ℕ) (p : PhysicalNode) (s : Fields) (keys aggregates : List Named) → IsSound F shape → slice_get shape n ≡ Some p → p.kind ≡ group_by_node keys aggregates → input_schemas shape p ≡ s ∷ [] → (i : ℕ) (slots : List (Option (List Row))) → ((k : ℕ) (rs : List Row) → slice_get slots k ≡ Some (Some rs) → (size : ℕ) × IsPartial F p p.kind i (rows_table s rs ∷ []) size)
        → (keyed p.origin (exprs_of keys) (rows_table s (taken_rows slots))).broken ≡ [] }
{}

/// What breaks a group-by of a sound shape over a morsel breaks it over all rows, whatever ends these, or the morsel has too many.
pub fn group_bys_show_parts()
    ensures { (F : Functions) (shape : Shape) (n : ℕ) (p : PhysicalNode) (s : Fields) (keys aggregates : List Named) → IsSound F shape → slice_get shape n ≡ Some p → p.kind ≡ group_by_node keys aggregates → input_schemas shape p ≡ s ∷ [] → ShowsParts F p s }
{}

/// What breaks it over the rows of a list of keys breaks it over all rows, where these are whole beside their keys; a list of a split with too many keys has too many rows behind it.
pub fn group_bys_show_lists()
    ensures causes { (F : Functions) (shape : Shape) (n : ℕ) (p : PhysicalNode) (s : Fields) (keys aggregates : List Named) → IsSound F shape → slice_get shape n ≡ Some p → p.kind ≡ group_by_node keys aggregates → input_schemas shape p ≡ s ∷ [] → (rows : List Row) → (keyed p.origin (exprs_of keys) (rows_table s rows)).broken ≡ []
        → (list : List Row) (c : Cause) → IsBrokenOver F p (part_of p list (rows_table s rows ∷ [])) c → IsShownOver F p (rows_table s rows) rows c }
    ensures sizes { (F : Functions) (shape : Shape) (n : ℕ) (p : PhysicalNode) (s : Fields) (keys aggregates : List Named) → IsSound F shape → slice_get shape n ≡ Some p → p.kind ≡ group_by_node keys aggregates → input_schemas shape p ≡ s ∷ []
        → (rows : List Row) (partitions : ℕ) (lists : List (List Row)) (list : List Row) → IsSplit p (rows_table s rows ∷ []) partitions lists → Contains lists list → HasTooManyKeys F p list (rows_table s rows ∷ []) → max_rows < length rows }
{}

/// Of each morsel there is a partial, or a cause; and of each list of keys there are rows, or a cause.
pub fn group_bys_answer()
    ensures partial { (F : Functions) (p : PhysicalNode) (keys aggregates : List Named) → p.kind ≡ group_by_node keys aggregates → (i : ℕ) (ts : List Table) → ((n : ℕ) × IsPartial F p p.kind i ts n) ⊎ ((c : Cause) × BreaksPartial F p p.kind i ts c) }
    ensures part { (F : Functions) (p : PhysicalNode) (keys aggregates : List Named) → p.kind ≡ group_by_node keys aggregates → (ts : List Table) (list : List Row) → ((rs : List Row) × IsMade F p (part_of p list ts) rs) ⊎ ((c : Cause) × IsBrokenOver F p (part_of p list ts) c) }
{}
