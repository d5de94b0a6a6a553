#![tactic(auto)]
// The bytes that a command goes by between host and module: the entry, the completion. Each contract is one equation with a definition of `specs/`.
// What is read and what is written are pairs of functions, here and in other crates (`read_`, `write_`): `From` would name but one of the two.
pub mod completions;
pub mod entries;
