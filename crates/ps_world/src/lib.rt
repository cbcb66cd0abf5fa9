// The world of a run: nodes, pipes and pieces out, the steps between worlds, and what is promised of every world that a run reaches.
#![tactic(auto)]
