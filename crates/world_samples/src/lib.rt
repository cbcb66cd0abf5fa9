// Two whole runs, and small worlds.
#![tactic(auto)]

pub mod runs;
pub mod small_worlds;
