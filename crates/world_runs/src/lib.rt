// Computed runs and small worlds, record by record: what the definitions of worlds say of them, and nothing else stands on them.
#![tactic(auto)]

pub mod ends;
pub mod joins;
pub mod keepers;
pub mod refused;
pub mod runs;
pub mod small_worlds;
pub mod sum_run;
