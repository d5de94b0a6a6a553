#![tactic(auto)]
// Memory Read, Memory Write and Memory Fill on a lent slice. They need nothing of the store.
pub mod calls;
mod effects;
mod moves;
