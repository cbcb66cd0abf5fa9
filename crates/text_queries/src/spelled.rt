// The words of the language for functions, kinds and joins, both ways.
ghost use Rattle.std.specs.Prelude.{◌≡◌, ◌≢◌, IfNone, IfSome};
ghost use Rattle.ps_frame.specs.declared.value.DataType.{DataType};
ghost use Rattle.ps_meaning.specs.declared.options.JoinType.{JoinType};
ghost use Rattle.text_queries.specs.Grammar.{function_word, how_word, kind_word};
ghost use Rattle.text_queries.specs.declared.words.TextFn.{TextFn};

use crate::words::TextFn;
use ps_frame::value::DataType;
use ps_meaning::options::JoinType;

/// The function that a word names.
pub fn function_of(word: &str) -> Option<TextFn>
    ensures some { IfSome result (λ name. word.now ≡ function_word name) }
    ensures none { IfNone result ((name : TextFn) → word.now ≢ function_word name) }
{
    match word {
        "min" => Some(TextFn::Min),
        "max" => Some(TextFn::Max),
        "first" => Some(TextFn::First),
        "last" => Some(TextFn::Last),
        "sum" => Some(TextFn::Sum),
        "n_unique" => Some(TextFn::NUnique),
        "count" => Some(TextFn::Count),
        "not" => Some(TextFn::Not),
        "is_null" => Some(TextFn::IsNull),
        "is_not_null" => Some(TextFn::IsNotNull),
        _ => None,
    }
}

/// The word of a function.
pub fn word_of_function(name: TextFn) -> &'static str
    ensures { result.now ≡ function_word name }
{
    match name {
        TextFn::Min => "min",
        TextFn::Max => "max",
        TextFn::First => "first",
        TextFn::Last => "last",
        TextFn::Sum => "sum",
        TextFn::NUnique => "n_unique",
        TextFn::Count => "count",
        TextFn::Not => "not",
        TextFn::IsNull => "is_null",
        TextFn::IsNotNull => "is_not_null",
    }
}

/// The kind that a word names.
pub fn kind_of(word: &str) -> Option<DataType>
    ensures some { IfSome result (λ kind. word.now ≡ kind_word kind) }
    ensures none { IfNone result ((kind : DataType) → word.now ≢ kind_word kind) }
{
    match word {
        "bool" => Some(DataType::Boolean),
        "int" => Some(DataType::Int64),
        "idx" => Some(DataType::IdxSize),
        "str" => Some(DataType::String),
        _ => None,
    }
}

/// The word of a kind.
pub fn word_of_kind(kind: DataType) -> &'static str
    ensures { result.now ≡ kind_word kind }
{
    match kind {
        DataType::Boolean => "bool",
        DataType::Int64 => "int",
        DataType::IdxSize => "idx",
        DataType::String => "str",
    }
}

/// The join that a word names.
pub fn how_of(word: &str) -> Option<JoinType>
    ensures some { IfSome result (λ how. word.now ≡ how_word how) }
    ensures none { IfNone result ((how : JoinType) → word.now ≢ how_word how) }
{
    match word {
        "inner" => Some(JoinType::Inner),
        "left" => Some(JoinType::Left),
        "right" => Some(JoinType::Right),
        "full" => Some(JoinType::Full),
        "semi" => Some(JoinType::Semi),
        "anti" => Some(JoinType::Anti),
        "cross" => Some(JoinType::Cross),
        _ => None,
    }
}

/// The word of a join.
pub fn word_of_how(how: JoinType) -> &'static str
    ensures { result.now ≡ how_word how }
{
    match how {
        JoinType::Inner => "inner",
        JoinType::Left => "left",
        JoinType::Right => "right",
        JoinType::Full => "full",
        JoinType::Semi => "semi",
        JoinType::Anti => "anti",
        JoinType::Cross => "cross",
    }
}
