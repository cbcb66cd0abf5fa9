// What is in flight: pieces out, and the places that wait for them.
#![tactic(auto)]

pub mod flight;
