//! Worked examples, as theorems of functions that do nothing.
ghost use Rattle.std.specs.Prelude.{◌≡◌, ℕ, [], None};
ghost use Rattle.bare_nodes.specs.Bare.{bare_node};
ghost use Rattle.bare_nodes.specs.Uncalled.{no_functions, unanswered};
ghost use Rattle.ps_frame.specs.Tables.{Frame};
ghost use Rattle.ps_meaning.specs.Shape.{multiplexer};

/// A multiplexer that doesn't know where it stands: it stands at the greatest number that a node can have, and reads nothing.
pub fn a_bare_multiplexer()
    ensures nowhere { (bare_node multiplexer []).origin ≡ 18446744073709551615 }
    ensures reads_nothing { (bare_node multiplexer []).inputs ≡ [] }
{}

/// Where none are at hand there is none; and of two that answer nothing neither answers.
pub fn no_answers()
    ensures none { no_functions.count ≡ 0 }
    ensures two { (unanswered 2).count ≡ 2 }
    ensures unanswered { (n : ℕ) (f : Frame) → (unanswered 2).answer n f ≡ None }
{}
