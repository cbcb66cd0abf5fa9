//! What a lowering has made so far.
use crate::expr_cache::ExprCache;
use crate::name_source::NameSource;
use keyed_slots::SlotMap;
use ps_phys::phys::{PhysNode, PhysNodeKey};
use pu_base::Node;

/// The nodes, what is known of expressions, the names in use, and the logical node that is being lowered.
#[derive(Drop)]
pub struct Lowering {
    pub phys_sm: SlotMap<PhysNodeKey, PhysNode>,
    pub cache: ExprCache,
    pub names: NameSource,
    pub origin: Node,
}
