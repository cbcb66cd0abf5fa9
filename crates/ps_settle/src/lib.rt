// How a graph comes to rest: what updates of single nodes lead to, and why sweeps from end to end are few. Laws alone, no code.
#![tactic(auto)]
