#![tactic(auto)]
// Whether the two slices whole are legal memory, and where the parts of the namespace that an id names lie.
pub mod checks;
