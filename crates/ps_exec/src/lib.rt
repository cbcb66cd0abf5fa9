//! Queries: a plan is answered, or it is planned, or its physical plan becomes a graph of nodes.
#![tactic(auto)]

pub use kept_planning::plans::plan_query;
pub use plain_queries::gate::{Gate, NoGate};
pub use plain_queries::query::{run_query, run_query_serial};
pub use plan_graphs::graphs::physical_plan_to_graph;
pub use ps_options::options::Options;
pub use ps_phys::text::plan_text;
