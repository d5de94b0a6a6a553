#![tactic(auto)]
// What a driver asks about namespaces: the Identify page of one, and one created from the host's fields.
pub mod creations;
pub mod pages;
