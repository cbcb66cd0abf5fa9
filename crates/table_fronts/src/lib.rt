// What reduces, zips and makers of one table have sent begins what they may give.
#![tactic(auto)]

pub mod tables;
