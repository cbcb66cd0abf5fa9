// Trials of the lowering of expressions and nodes: what stands once calls are done, as text, what a select's stream means, and what
// they ask of names and expressions.
#![tactic(auto)]

#[cfg(test)]
mod beginnings;
#[cfg(test)]
mod calls;
#[cfg(test)]
mod cases;
#[cfg(test)]
mod every_kind;
#[cfg(test)]
mod expressions;
#[cfg(test)]
mod fresh_names;
#[cfg(test)]
mod groups;
#[cfg(test)]
mod kept_selects;
#[cfg(test)]
mod long_plans;
#[cfg(test)]
mod lowered;
#[cfg(test)]
mod nodes;
#[cfg(test)]
mod select_documents;
#[cfg(test)]
mod steps;
#[cfg(test)]
mod valid;
