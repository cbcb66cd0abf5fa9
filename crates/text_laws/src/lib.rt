//! Laws of the pipeline language, as theorems of functions that do nothing.
#![tactic(auto)]

ghost use Rattle.std.specs.Prelude.{◌≡◌, ℕ, List};
ghost use Rattle.text_laws.specs.Widths.{QueryFits};
ghost use Rattle.text_queries.specs.Grammar.{ReadsAs};
ghost use Rattle.text_queries.specs.Printable.{IsPrintable};
ghost use Rattle.text_queries.specs.Queries.{Query};
ghost use Rattle.text_queries.specs.Writing.{printed};

/// The grammar gives a text one reading at most.
pub fn one_reading()
    ensures { (text : List ℕ) (query other : Query) → ReadsAs text query → ReadsAs text other → query ≡ other }
{}

/// What is printed of a query that is at most 100 deep and whose lists have entries reads as the query.
pub fn printed_reads()
    ensures { (query : Query) → IsPrintable query → QueryFits query → ReadsAs (printed query) query }
{}
