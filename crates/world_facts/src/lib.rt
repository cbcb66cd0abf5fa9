// What every reached world keeps of its pipes, its pieces and its phase, and what follows of claims, of drops and of stores.
#![tactic(auto)]

pub mod facts;
pub mod promises;
