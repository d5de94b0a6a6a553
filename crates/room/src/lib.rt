#![tactic(auto)]
// How full the store is, for a host that asks between two commands.
pub mod polls;
