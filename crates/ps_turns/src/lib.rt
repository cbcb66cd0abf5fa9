// What a node of a running query keeps, claims, answers and gives: definitions that nodes, worlds and their laws stand on.
#![tactic(auto)]
