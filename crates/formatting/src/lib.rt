#![tactic(auto)]
// Formatting, for one namespace or for two.
mod blanks;
pub mod formats;
pub mod measures;
