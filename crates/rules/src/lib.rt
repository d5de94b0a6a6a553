#![tactic(auto)]
// Steps a to j.
pub mod steps;
