// A finished run of a graph whose nodes all stream has every pipe done, and its sink a whole table of its meaning.
#![tactic(auto)]

pub mod ends;
