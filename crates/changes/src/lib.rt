#![tactic(auto)]
// The map of one namespace changed.
pub mod pairs;
