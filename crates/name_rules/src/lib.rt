// How often names stand in lists and schemas, and which rules on names and kinds nodes keep. No code.
#![tactic(auto)]

pub mod laws;
