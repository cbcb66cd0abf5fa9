// What sources, selects without input, unions, multiplexers and sinks have sent begins what they may give.
#![tactic(auto)]

pub mod fronts;
