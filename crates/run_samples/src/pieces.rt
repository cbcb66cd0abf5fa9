//! Pieces: what their operations are as nodes and as steps, and the faults that errors stand for.
ghost use Rattle.std.specs.Prelude.{◌≡◌, ◌∷◌, [], None, Ok, Some, codes};
ghost use Rattle.ps_frame.specs.declared.refusal.Bound.TheVariants as bound;
ghost use Rattle.ps_frame.specs.declared.refusal.PolarsError.TheVariants as error;
ghost use Rattle.ps_frame.specs.declared.value.DataFault.TheVariants as fault;
ghost use Rattle.ps_meaning.specs.Shape.{stream_map, with_row_index};
ghost use Rattle.ps_meaning.specs.Steps.{row_index, user};
ghost use Rattle.ps_pieces.specs.Computed.{fault_of};
ghost use Rattle.ps_pieces.specs.Operations.{kind_in, rows_taken, schemas_taken, step_in};
ghost use Rattle.ps_pieces.specs.declared.parameters.Operation.TheVariants as operation;
ghost use Rattle.run_samples.specs.Pieces.{a_frame, from_none, from_ten, no_tree};

/// A row index goes on from the rows before; a map is of its function; and each takes the table that it is over.
pub fn operations_of_pieces()
    ensures goes_on { kind_in no_tree 3 from_ten ≡ with_row_index (codes "n") (Some 13) }
    ensures from_none { kind_in no_tree 3 from_none ≡ with_row_index (codes "n") (Some 3) }
    ensures step { step_in no_tree 3 from_none ≡ row_index (codes "n") (Some 3) }
    ensures map { kind_in no_tree 3 (operation.Map 1) ≡ stream_map (user 1) }
    ensures schemas { schemas_taken from_ten a_frame ≡ a_frame.schema ∷ [] }
    ensures rows { rows_taken from_ten a_frame ≡ a_frame.rows ∷ [] }
{}

/// Errors of data stand for faults; want of memory stands for none.
pub fn faults_of_errors()
    ensures shape { fault_of (error.ShapeMismatch (record { 0 = 4 })) ≡ Some fault.Shape }
    ensures rows { fault_of (error.OutOfBounds (record { 0 = 4 }) bound.Rows) ≡ Some fault.Rows }
    ensures memory { fault_of error.OutOfMemory ≡ None }
{}
