// What a node of any kind keeps along every step: what each step leaves of what it stored, kept and made, of its pipes and of the marks of the phase; and the law that goes from steps, updates, fills and Opens to every reached world.
#![tactic(auto)]

pub mod journals;
