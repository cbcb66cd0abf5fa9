// What a node of a graph knows by itself: its kind and its schema, neither where it stands nor what it reads, and none of the functions that the caller handed in.
#![tactic(auto)]

pub mod examples;
