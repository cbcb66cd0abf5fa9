// Laws of evaluation, as theorems of functions that do nothing.
ghost use Rattle.std.specs.Prelude.{◌≡◌, ◌≢◌, ◌++◌, ◌∷◌, ◌↔◌, [], IsFalse, IsTrue, length, ℕ};
ghost use Rattle.std.specs.List.{flat_map};
ghost use Rattle.ps_frame.specs.Causes.{Cell, has_cause, value};
ghost use Rattle.ps_frame.specs.Eval.{eval};
ghost use Rattle.ps_frame.specs.Tables.{Fields, IsWhole, Table};
ghost use Rattle.ps_frame.specs.Trees.{Tree};
ghost use Rattle.ps_frame.specs.Typing.{is_elementwise, is_independent, is_scalar, kind_over};
ghost use Rattle.ps_frame.specs.declared.value.Value.{Value};
ghost use Rattle.ps_rowwise.specs.Rows.{AreParts, Begins, GoesByRow, HasKind, IsFront, row_alone};

/// An elementwise expression that reads its input gives a cell for each row: the one that it gives over that row alone. Its column is ended just where the table is, and loses no cause where there are rows.
pub fn elementwise_columns_go_row_by_row()
    ensures cells { (node : ℕ) (T : Table) (t : Tree) → GoesByRow T.schema t → (eval node T t).cells ≡ flat_map (λ row. (eval node (row_alone T.schema row) t).cells) T.rows }
    ensures count { (node : ℕ) (T : Table) (t : Tree) → GoesByRow T.schema t → length (eval node T t).cells ≡ length T.rows }
    ensures ended { (node : ℕ) (T : Table) (t : Tree) → GoesByRow T.schema t → (eval node T t).broken ≡ [] ↔ IsWhole T }
    ensures lost { (node : ℕ) (T : Table) (t : Tree) → GoesByRow T.schema t → T.rows ≢ [] → (eval node T t).lost ≡ [] }
{}

/// Over two parts of a table it gives the two parts of its cells.
pub fn parts_give_parts()
    ensures { (node : ℕ) (p q T : Table) (t : Tree) → GoesByRow T.schema t → AreParts p q T → (eval node p t).cells ++ (eval node q t).cells ≡ (eval node T t).cells }
{}

/// Over a front of a table's rows an elementwise expression gives a front of its cells over the table.
pub fn fronts_give_fronts()
    ensures { (node : ℕ) (p T : Table) (t : Tree) → IsTrue (is_elementwise t) → HasKind T.schema t → IsFront p T → Begins (eval node p t).cells (eval node T t).cells }
{}

/// An elementwise expression that is independent of its input gives one cell, even over a table that a fault ended, and loses no cause.
pub fn elementwise_columns_without_input_are_one_cell()
    ensures { (node : ℕ) (T : Table) (t : Tree) → IsTrue (is_elementwise t) → IsTrue (is_independent t) → HasKind T.schema t → (c : Cell) × (eval node T t ≡ record { cells = c ∷ []; broken = []; lost = [] }) }
{}

/// What is independent of its input has the same column over every table, and the same kind over every schema.
pub fn independent_columns_ignore_the_table()
    ensures column { (node : ℕ) (T U : Table) (t : Tree) → IsTrue (is_independent t) → eval node T t ≡ eval node U t }
    ensures kind { (s r : Fields) (t : Tree) → IsTrue (is_independent t) → kind_over s t ≡ kind_over r t }
{}

/// A scalar expression gives one cell over any table, unless a fault ended its column; where it has no cause at all, the cell is a value.
pub fn scalars_give_one_cell()
    ensures cell { (node : ℕ) (T : Table) (t : Tree) → IsTrue (is_scalar t) → HasKind T.schema t → (eval node T t).broken ≡ [] → length (eval node T t).cells ≡ 1 }
    ensures value { (node : ℕ) (T : Table) (t : Tree) → IsTrue (is_scalar t) → HasKind T.schema t → IsFalse (has_cause (eval node T t)) → (v : Value) × ((eval node T t).cells ≡ value v ∷ []) }
{}
