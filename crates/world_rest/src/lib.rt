// Between phases the updates of every reached world come to rest, or find a fault.
#![tactic(auto)]

pub mod resting;
