//! Laws of filters by whether a column holds the number 1, as theorems of functions that do nothing.
ghost use Rattle.std.specs.Prelude.{◌≡◌, ◌∷◌, [], List, Some, filter, get_or, length, ℕ};
ghost use Rattle.std.specs.List.{AllByRecursion};
ghost use Rattle.ps_frame.specs.Operators.{binary_value};
ghost use Rattle.ps_frame.specs.Tables.{Table, field_index, field_kind};
ghost use Rattle.ps_frame.specs.Values.{is_true};
ghost use Rattle.ps_frame.specs.declared.expr.Operator.TheVariants as op;
ghost use Rattle.ps_frame.specs.declared.value.DataType.TheVariants as kind;
ghost use Rattle.ps_frame.specs.declared.value.Value.{Value};
ghost use Rattle.ps_frame.specs.declared.value.Value.TheVariants as val;
ghost use Rattle.ps_meaning.specs.Cases.{keyed, where_true};
ghost use Rattle.ps_meaning.specs.Steps.{Name};
ghost use Rattle.ps_shares.specs.Kept.{HasNoOther};
ghost use Rattle.plan_rules.specs.Distinct.{is_one};

/// A filter by whether a column of numbers holds 1 keeps the rows that do, of a table whose rows have a value for each field, and nothing breaks it but what breaks the table.
pub fn flagged_rows_are_kept()
    ensures rows { (at : ℕ) (t : Table) (name : Name) (j : ℕ) → field_index name t.schema ≡ Some j → field_kind name t.schema ≡ Some kind.IdxSize → AllByRecursion (λ (row : List Value). length row ≡ length t.schema) t.rows → where_true (length t.schema) (keyed at (is_one name ∷ []) t).rows ≡ filter (λ row. is_true (binary_value op.Eq (get_or row j val.Null) (val.IdxSize 1))) t.rows }
    ensures causes { (at : ℕ) (t : Table) (name : Name) (j : ℕ) → field_index name t.schema ≡ Some j → field_kind name t.schema ≡ Some kind.IdxSize → HasNoOther (keyed at (is_one name ∷ []) t).broken t.broken }
{}
