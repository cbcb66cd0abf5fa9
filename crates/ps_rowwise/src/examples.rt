// What the conditions of the laws keep apart, on small tables, as theorems of functions that do nothing.
ghost use Rattle.std.specs.Prelude.{◌≡◌, ◌∷◌, [], None, pos, true};
ghost use Rattle.ps_frame.specs.Causes.{faulty, value, whole_column};
ghost use Rattle.ps_frame.specs.Eval.{eval};
ghost use Rattle.ps_frame.specs.Examples.{a, a123, b, bad_text, col_a, earlier, int, lit_int, table_a};
ghost use Rattle.ps_frame.specs.Trees.{Tree};
ghost use Rattle.ps_frame.specs.Typing.{kind_over};
ghost use Rattle.ps_frame.specs.declared.expr.Operator.TheVariants as op;
ghost use Rattle.ps_frame.specs.declared.value.DataFault.TheVariants as fault;
ghost use Rattle.ps_frame.specs.declared.value.DataType.TheVariants as kind;

/// A literal has one cell over three rows and over none, and beside a column a cell for each row.
pub fn literals_and_columns()
    ensures literal { eval 1 a123 (lit_int (pos 5)) ≡ whole_column (int 5 ∷ []) }
    ensures literal_over_no_rows { eval 1 (table_a []) (lit_int (pos 5)) ≡ whole_column (int 5 ∷ []) }
    ensures sum { eval 1 a123 (Tree.binary op.Plus col_a (lit_int (pos 1))) ≡ whole_column (int 2 ∷ int 3 ∷ int 4 ∷ []) }
    ensures sum_over_no_rows { eval 1 (table_a []) (Tree.binary op.Plus col_a (lit_int (pos 1))) ≡ whole_column [] }
{}

/// A faulty cell beside a column is a fault in each row; where there are no rows, its cause is lost.
pub fn faulty_cells_beside_columns()
    ensures row { eval 1 (table_a ((int 1 ∷ []) ∷ [])) (Tree.binary op.Eq col_a bad_text) ≡ record { cells = faulty (record { fault = fault.StrictCast; node = 1 }) [] ∷ []; broken = []; lost = [] } }
    ensures no_rows { eval 1 (table_a []) (Tree.binary op.Eq col_a bad_text) ≡ record { cells = []; broken = []; lost = record { fault = fault.StrictCast; node = 1 } ∷ [] } }
{}

/// Over an ended table the cells are the same, and the column is ended; a literal isn't, and the height has no cell.
pub fn columns_over_ended_tables()
    ensures column { eval 1 (record { schema = (a, kind.Int64) ∷ []; rows = (int 7 ∷ []) ∷ []; broken = earlier ∷ [] }) (Tree.binary op.Plus col_a (lit_int (pos 1))) ≡ record { cells = value (int 8) ∷ []; broken = earlier ∷ []; lost = [] } }
    ensures literal { eval 1 (record { schema = (a, kind.Int64) ∷ []; rows = (int 7 ∷ []) ∷ []; broken = earlier ∷ [] }) (lit_int (pos 5)) ≡ whole_column (int 5 ∷ []) }
    ensures height { eval 1 (record { schema = (a, kind.Int64) ∷ []; rows = (int 7 ∷ []) ∷ []; broken = earlier ∷ [] }) Tree.len ≡ record { cells = []; broken = earlier ∷ []; lost = [] } }
{}

/// Without a kind the laws don't hold: a column that isn't there has no cells, and a gather that is called scalar has one for each of its indices.
pub fn expressions_without_kinds()
    ensures absent { eval 1 a123 (Tree.column b) ≡ whole_column [] }
    ensures absent_kind { kind_over a123.schema (Tree.column b) ≡ None }
    ensures gather { eval 1 (table_a ((int 0 ∷ []) ∷ (int 1 ∷ []) ∷ [])) (Tree.gather true col_a col_a) ≡ whole_column (int 0 ∷ int 1 ∷ []) }
    ensures gather_kind { kind_over a123.schema (Tree.gather true col_a col_a) ≡ None }
{}
