//! Laws of the names that calls for expressions answer, as theorems of functions that do nothing.
ghost use Rattle.answered_names.specs.Answers.{ColumnsStayAlone, NamesAreInputsOrFresh};

/// The stream that a call answers shows names of its input, and fresh ones; and an answered expression is the column of a known
/// name exactly where the asked one is.
pub fn calls_answer_by_names()
    ensures streams { NamesAreInputsOrFresh }
    ensures columns { ColumnsStayAlone }
{}
