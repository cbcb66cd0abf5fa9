//! Worked parts of group-bys, as theorems of functions that do nothing.
ghost use Rattle.std.specs.Prelude.{◌≡◌, ◌∷◌, [], codes, false, pos, true, Some};
ghost use Rattle.ps_frame.specs.Trees.{Tree};
ghost use Rattle.ps_frame.specs.declared.expr.FunctionExpr.TheVariants as fun;
ghost use Rattle.ps_frame.specs.declared.expr.Operator.TheVariants as op;
ghost use Rattle.ps_meaning.specs.Shape.{group_by_node, in_memory_map};
ghost use Rattle.ps_meaning.specs.Steps.{group_by};
ghost use Rattle.ps_rules.specs.Names.{temporary};
ghost use Rattle.ps_rules.specs.Worked.{a_name, col_a, col_b, column_of, counter, int, start, sum_of};
ghost use Rattle.group_lowering.specs.Groups.{all_apart, by_cell_tree, grouping_kind, is_reduction, keys_below, operator_apart};
ghost use Rattle.group_lowering.specs.declared.apart.ByCell.TheVariants as by_cell;
ghost use Rattle.group_lowering.specs.declared.groups.Grouping.TheVariants as grouping;
ghost use Rattle.lowering_parts.specs.declared.operation.Operation.TheVariants as operation;

/// Which expressions are reductions themselves.
pub fn reductions()
    ensures aggregate { is_reduction (sum_of col_a) ≡ true }
    ensures height { is_reduction Tree.len ≡ true }
    ensures over_a_reduction { is_reduction (Tree.binary op.Plus (sum_of col_a) (int 1)) ≡ false }
    ensures column { is_reduction col_a ≡ false }
{}

/// Several expressions taken apart, and an operator over them: the fresh names go from left to right.
pub fn taken_apart()
    ensures several { all_apart (sum_of col_a ∷ col_b ∷ Tree.len ∷ []) (counter [] 0) [] ≡ record { names = counter [] 2; reductions = (temporary 0, sum_of col_a) ∷ (temporary 1, Tree.len) ∷ []; exprs = column_of 0 ∷ col_b ∷ column_of 1 ∷ [] } }
    ensures operator { operator_apart (by_cell_tree (by_cell.Operator (operation.Binary op.Plus))) (sum_of col_a ∷ Tree.len ∷ []) (counter (0 ∷ []) 0) [] ≡ record { names = counter (0 ∷ []) 3; reductions = (temporary 1, sum_of col_a) ∷ (temporary 2, Tree.len) ∷ []; expr = Tree.binary op.Plus (column_of 1) (column_of 2) } }
    ensures function { by_cell_tree (by_cell.Function fun.IsNull) (col_a ∷ []) ≡ Tree.function fun.IsNull col_a }
{}

/// How groups are computed; and a literal key over a source, which is lowered beside all columns and so stays over the source.
pub fn groups_and_keys()
    ensures streamed { grouping_kind grouping.Streamed ((a_name, col_a) ∷ []) [] ≡ group_by_node ((a_name, col_a) ∷ []) [] }
    ensures whole { grouping_kind (grouping.Whole true (Some (pos 0, 2))) ((a_name, col_a) ∷ []) [] ≡ in_memory_map (group_by (record { keys = (a_name, col_a) ∷ []; aggregates = []; maintain_order = true; cut = Some (pos 0, 2) })) }
    ensures literal_key { keys_below 1 ((codes "k", int 1) ∷ []) (0, 0) start ≡ record { state = start; stream = (0, 0); exprs = (codes "k", int 1) ∷ [] } }
{}
