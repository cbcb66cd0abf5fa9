// Queries, read off their texts.
ghost use Rattle.std.specs.Prelude.{◌≡◌, List, Err, IfErr, IfOk, map};
ghost use Rattle.text_queries.specs.Grammar.{ReadsAs};
ghost use Rattle.text_queries.specs.Queries as trees;
ghost use Rattle.text_queries.specs.Views.{query_of, stage_of};
ghost use Rattle.text_reading.specs.Reading.{AreShallowStages, IsAnswer, IsRefusal, IsShallowQuery};
ghost use Rattle.text_tokens.specs.declared.error.TextError.TheVariants as refusal;

use crate::entries::read_column;
use crate::parts::{behind_sign, behind_word};
use crate::stages::read_stage;
use ps_frame::items::Items;
use std::alloc::Global;
use text_queries::query::{Query, Stage};
use text_tokens::error::TextError;
use text_tokens::read_tokens;
use text_tokens::token::{Sign, Token};

/// The query that the grammar gives a text.
///
/// NoReading exactly where it gives none, and no other error but want of memory.
pub fn read_query(alloc: Global, text: &str) -> Result<Query, TextError>
    ensures found { IfOk result (λ query. ReadsAs text.now (query_of query)) }
    ensures only { IfOk result (λ query. (other : trees.Query) → ReadsAs text.now other → query_of query ≡ other) }
    ensures none { result ≡ Err refusal.NoReading → (query : trees.Query) → ¬ ReadsAs text.now query }
    ensures causes { IfErr result IsRefusal }
{
    // By hand, here and below: the clauses tell the refusals of the call.
    match read_tokens(alloc, text) {
        Ok(tokens) => query_of_tokens(alloc, tokens.as_slice()),
        Err(error) => Err(error),
    }
}

/// The query that the tokens of a whole text are.
fn query_of_tokens(alloc: Global, tokens: &[Token]) -> Result<Query, TextError>
    ensures found { IfOk result (λ query. IsShallowQuery tokens.now (query_of query)) }
    ensures reads { (query : trees.Query) → IsShallowQuery tokens.now query → IsAnswer query_of result query }
    ensures causes { IfErr result IsRefusal }
{
    let Some(behind) = behind_word(tokens, "from") else {
        return Err(TextError::NoReading);
    };
    let (source, rest) = match read_column(alloc, behind) {
        Ok(source) => source,
        Err(error) => return Err(error),
    };
    match read_stages(alloc, rest) {
        Ok(stages) => Ok(Query { source, stages }),
        Err(error) => Err(error),
    }
}

/// The stages that the tokens are, each behind a `|`.
fn read_stages(alloc: Global, tokens: &[Token]) -> Result<Items<Stage>, TextError>
    ensures found { IfOk result (λ stages. AreShallowStages tokens.now (map stage_of stages)) }
    ensures reads { (stages : List trees.Stage) → AreShallowStages tokens.now stages → IsAnswer (map stage_of) result stages }
    ensures causes { IfErr result IsRefusal }
{
    let mut stages = Vec::new(alloc);
    let mut rest = tokens;
    while !rest.is_empty() {
        let Some(behind) = behind_sign(rest, Sign::Bar) else {
            return Err(TextError::NoReading);
        };
        match read_stage(alloc, behind) {
            Ok((stage, after)) => {
                stages.push(stage)?;
                rest = after;
            }
            Err(error) => return Err(error),
        }
    }
    Ok(Items::new(stages))
}
