// What is promised of runs, from what each kind of node keeps in every reached world; and that every reached world keeps of each node what its family keeps.
#![tactic(auto)]

pub mod promised;
