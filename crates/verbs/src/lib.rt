#![tactic(auto)]
// The verbs on the two parts of a namespace.
pub mod slots;
