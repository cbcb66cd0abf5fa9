//! The pipeline language, in which queries are written for people: what a query is, how its text is read and printed, and
//! the plan that it means.
#![tactic(auto)]

pub use text_plans::query_plan;
pub use text_printing::print_query;
pub use text_queries::depth;
pub use text_queries::query::{Item, Key, Query, Stage, TextExpr};
pub use text_queries::words::TextFn;
pub use text_reading::read_query;
pub use text_tokens::error::TextError;
