// What each family of nodes keeps in every reached world, with small worlds that tell it from less.
#![tactic(auto)]

pub mod examples;
