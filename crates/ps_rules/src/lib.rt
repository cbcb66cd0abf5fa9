// The rules by which expressions over a stream become streams, as functions on trees, and worked calls. No code.
#![tactic(auto)]

pub mod examples;
