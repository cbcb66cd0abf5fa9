// While a phase is open its nodes move, whatever their kinds, or wait for a worker, and between phases updates come to rest: no run is stuck.
#![tactic(auto)]

pub mod moves;
