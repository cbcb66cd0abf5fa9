// Every step and update keeps what the family of sources says.
#![tactic(auto)]

pub mod keeping;
