// What the definitions say of small tables, as theorems of functions that do nothing.
ghost use Rattle.std.specs.Prelude.{◌≡◌, pos};
ghost use Rattle.expression_reads.specs.Examples.{a_and_b, misnamed, no_columns, only_b};
ghost use Rattle.expression_reads.specs.Reads.{HasColumnsOf, HasOnlyRead, HasWhatIsRead, ReadsAll};
ghost use Rattle.ps_frame.specs.Examples.{a, b, lit_int};
ghost use Rattle.ps_frame.specs.Trees.{Tree};
ghost use Rattle.ps_frame.specs.declared.expr.Operator.TheVariants as op;

/// A sum of a column and a literal reads the column; a literal and the height read none.
pub fn names_that_are_read()
    ensures sum { ReadsAll (λ name. name ≡ b) (Tree.binary op.Plus (Tree.column b) (lit_int (pos 1))) }
    ensures literal { ReadsAll (λ name. ⊥) (lit_int (pos 5)) }
    ensures height { ReadsAll (λ name. ⊥) Tree.len }
{}

/// A table has the columns of another one under their names: the values of another column under a name are none.
pub fn tables_with_columns_of_another()
    ensures one { HasColumnsOf a_and_b only_b }
    ensures none { HasColumnsOf a_and_b no_columns }
    ensures misnamed { ¬ HasColumnsOf a_and_b misnamed }
{}

/// The second column is all that an expression of it reads, and not what an expression of the first one reads.
pub fn tables_with_what_is_read()
    ensures read { HasWhatIsRead a_and_b only_b (Tree.binary op.Plus (Tree.column b) (Tree.column b)) }
    ensures only { HasOnlyRead only_b.schema (Tree.binary op.Plus (Tree.column b) (Tree.column b)) }
    ensures height { HasWhatIsRead a_and_b no_columns Tree.len }
    ensures unread { ¬ HasWhatIsRead a_and_b only_b (Tree.binary op.Plus (Tree.column b) (Tree.column a)) }
    ensures needless { ¬ HasOnlyRead a_and_b.schema (Tree.column b) }
{}
