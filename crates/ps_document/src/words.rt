// The words of a document.
ghost use Rattle.std.specs.Prelude.{◌≡◌, ◌≢◌, IsTrue, IfSome, IfNone};
ghost use Rattle.ps_frame.specs.Lines.{what_name};
ghost use Rattle.ps_document.specs.Words.{function_word, is_left_out_kind, join_word, keep_word, kind_word, operator_word, sink_word, validation_word};

use ps_frame::expr::{FunctionExpr, Operator, What};
use ps_frame::value::DataType;
use ps_meaning::options::{JoinType, JoinValidation, SinkType, UniqueKeepStrategy};

/// The kind of a word.
pub fn kind_of(word: &str) -> Option<DataType>
    ensures some { IfSome result (λ k. word.now ≡ kind_word k) }
    ensures none { IfNone result ((k : DataType) → word.now ≢ kind_word k) }
{
    match word {
        "bool" => Some(DataType::Boolean),
        "int" => Some(DataType::Int64),
        "idx" => Some(DataType::IdxSize),
        "str" => Some(DataType::String),
        _ => None,
    }
}

/// The operator of a word.
pub fn operator_of(word: &str) -> Option<Operator>
    ensures some { IfSome result (λ o. word.now ≡ operator_word o) }
    ensures none { IfNone result ((o : Operator) → word.now ≢ operator_word o) }
{
    match word {
        "eq" => Some(Operator::Eq),
        "ne" => Some(Operator::NotEq),
        "lt" => Some(Operator::Lt),
        "le" => Some(Operator::LtEq),
        "gt" => Some(Operator::Gt),
        "ge" => Some(Operator::GtEq),
        "add" => Some(Operator::Plus),
        "sub" => Some(Operator::Minus),
        "mul" => Some(Operator::Multiply),
        "floordiv" => Some(Operator::FloorDivide),
        "mod" => Some(Operator::Modulus),
        "and" => Some(Operator::And),
        "or" => Some(Operator::Or),
        _ => None,
    }
}

/// The function of a word.
pub fn function_of(word: &str) -> Option<FunctionExpr>
    ensures some { IfSome result (λ g. word.now ≡ function_word g) }
    ensures none { IfNone result ((g : FunctionExpr) → word.now ≢ function_word g) }
{
    match word {
        "not" => Some(FunctionExpr::Not),
        "is_null" => Some(FunctionExpr::IsNull),
        "is_not_null" => Some(FunctionExpr::IsNotNull),
        "reverse" => Some(FunctionExpr::Reverse),
        _ => None,
    }
}

/// The way of joining of a word.
pub fn join_of(word: &str) -> Option<JoinType>
    ensures some { IfSome result (λ how. word.now ≡ join_word how) }
    ensures none { IfNone result ((how : JoinType) → word.now ≢ join_word how) }
{
    match word {
        "inner" => Some(JoinType::Inner),
        "left" => Some(JoinType::Left),
        "right" => Some(JoinType::Right),
        "full" => Some(JoinType::Full),
        "semi" => Some(JoinType::Semi),
        "anti" => Some(JoinType::Anti),
        "cross" => Some(JoinType::Cross),
        _ => None,
    }
}

/// The validation of a word.
pub fn validation_of(word: &str) -> Option<JoinValidation>
    ensures some { IfSome result (λ v. word.now ≡ validation_word v) }
    ensures none { IfNone result ((v : JoinValidation) → word.now ≢ validation_word v) }
{
    match word {
        "m:m" => Some(JoinValidation::ManyToMany),
        "m:1" => Some(JoinValidation::ManyToOne),
        "1:m" => Some(JoinValidation::OneToMany),
        "1:1" => Some(JoinValidation::OneToOne),
        _ => None,
    }
}

/// The rows to keep of a word.
pub fn keep_of(word: &str) -> Option<UniqueKeepStrategy>
    ensures some { IfSome result (λ k. word.now ≡ keep_word k) }
    ensures none { IfNone result ((k : UniqueKeepStrategy) → word.now ≢ keep_word k) }
{
    match word {
        "first" => Some(UniqueKeepStrategy::First),
        "last" => Some(UniqueKeepStrategy::Last),
        "any" => Some(UniqueKeepStrategy::Any),
        "none" => Some(UniqueKeepStrategy::None),
        _ => None,
    }
}

/// The sink of a word.
pub fn sink_of(word: &str) -> Option<SinkType>
    ensures some { IfSome result (λ s. word.now ≡ sink_word s) }
    ensures none { IfNone result ((s : SinkType) → word.now ≢ sink_word s) }
{
    match word {
        "sink" => Some(SinkType::Memory),
        "file_sink" => Some(SinkType::File),
        _ => None,
    }
}

/// The left-out kind of a word.
pub fn left_out_kind_of(word: &str) -> Option<What>
    ensures some { IfSome result (λ w. word.now ≡ what_name w) }
    ensures left_out { IfSome result (λ w. IsTrue (is_left_out_kind w)) }
    ensures none { IfNone result ((w : What) → IsTrue (is_left_out_kind w) → word.now ≢ what_name w) }
{
    match word {
        "Alias" => Some(What::Alias),
        "Explode" => Some(What::Explode),
        "Implode" => Some(What::Implode),
        "AggGroups" => Some(What::AggGroups),
        "Window" => Some(What::Window),
        "AnonymousFunction" => Some(What::AnonymousFunction),
        "SeriesLiteral" => Some(What::SeriesLiteral),
        "FloatLiteral" => Some(What::FloatLiteral),
        "Mean" => Some(What::Mean),
        "Var" => Some(What::Var),
        "Std" => Some(What::Std),
        "Median" => Some(What::Median),
        "Quantile" => Some(What::Quantile),
        "TrueDivide" => Some(What::TrueDivide),
        "Scan" => Some(What::Scan),
        "PythonScan" => Some(What::PythonScan),
        "ExtContext" => Some(What::ExtContext),
        "Invalid" => Some(What::Invalid),
        "MergeSorted" => Some(What::MergeSorted),
        "OtherFunction" => Some(What::OtherFunction),
        "AsOfJoin" => Some(What::AsOfJoin),
        "InequalityJoin" => Some(What::InequalityJoin),
        "GroupByApply" => Some(What::GroupByApply),
        "DynamicGroupBy" => Some(What::DynamicGroupBy),
        "RollingGroupBy" => Some(What::RollingGroupBy),
        _ => None,
    }
}
