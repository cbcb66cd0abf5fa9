//! The planner: expressions and plans become physical nodes, which are streams of tables.
#![tactic(auto)]

pub use kept_groups::groups::build_group_by_stream;
pub use kept_groups::slices::build_slice_stream;
pub use kept_lowering::exprs::{build_select_stream, lower_exprs};
pub use kept_planning::plans::build_physical_plan;
pub use kept_plans::plans::lower_ir;
pub use ps_fresh::expr_cache::{ExprCache, is_input_independent};
pub use ps_fresh::lowering::Lowering;
pub use ps_fresh::name_source::{NameSource, unique_column_name};
pub use ps_fresh::schemas::compute_output_schema;
pub use ps_multiplexers::multiplexers::insert_multiplexers;
pub use ps_phys::phys::{PhysNode, PhysNodeKey, PhysNodeKind, PhysStream};
