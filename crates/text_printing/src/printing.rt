// Queries are printed.
ghost use Rattle.std.specs.Prelude.{◌≡◌, Err, IfOk, OnErr, string_bytes};
ghost use Rattle.text_queries.specs.Grammar.{ReadsAs};
ghost use Rattle.text_queries.specs.Printable.{IsPrintable};
ghost use Rattle.text_queries.specs.Views.{query_of};
ghost use Rattle.text_queries.specs.Writing.{printed};
ghost use Rattle.text_tokens.specs.declared.error.TextError.TheVariants as refusal;

use crate::writer::Writer;
use std::alloc::Global;
use text_queries::query::Query;
use text_tokens::error::TextError;
use text_tokens::write_tokens;

/// The text of a query: its tokens with single spaces between. Each operand of an operator that is itself an operator's
/// tree stands in parentheses, and names in quotes where they are no words, or reserved.
///
/// The text reads as the query where that is at most 100 deep and each of its lists has an entry, but for that of its stages
/// and the names of a cross join, which has none. Fails only for want of memory.
pub fn print_query(alloc: Global, query: &Query) -> Result<String, TextError>
    ensures text { IfOk result (λ text. string_bytes text ≡ printed (query_of query.now)) }
    ensures again { IsPrintable (query_of query.now) → IfOk result (λ text. ReadsAs (string_bytes text) (query_of query.now)) }
    ensures memory { OnErr result (result ≡ Err refusal.OutOfMemory) }
{
    let mut writer = Writer::new(alloc);
    writer.query(query)?;
    write_tokens(alloc, writer.tokens())
}
