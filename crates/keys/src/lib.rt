#![tactic(auto)]
// The order of keys, and keys in sixteen bytes. Each contract is one equation in the words of `specs/Keys.antt`.
pub mod orders;
pub mod wide;
