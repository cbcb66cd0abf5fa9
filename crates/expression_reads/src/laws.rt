// A law of evaluation, as a theorem of a function that does nothing.
ghost use Rattle.std.specs.Prelude.{◌≡◌, ℕ};
ghost use Rattle.expression_reads.specs.Reads.{HasWhatIsRead};
ghost use Rattle.ps_frame.specs.Eval.{eval};
ghost use Rattle.ps_frame.specs.Tables.{Frame, whole};
ghost use Rattle.ps_frame.specs.Trees.{Tree};
ghost use Rattle.ps_frame.specs.Typing.{kind_over};

/// Over a table that has what an expression reads of another one, the expression has the column and the kind that it
/// has over the other one.
pub fn expressions_read_what_they_name()
    ensures column { (node : ℕ) (all few : Frame) (t : Tree) → HasWhatIsRead all few t → eval node (whole few) t ≡ eval node (whole all) t }
    ensures kind { (all few : Frame) (t : Tree) → HasWhatIsRead all few t → kind_over few.schema t ≡ kind_over all.schema t }
{}
