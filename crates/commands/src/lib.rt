#![tactic(auto)]
// The commands: what a command does to the map, and one command from its entry to its completion.
pub mod commands;
mod effects;
