#![tactic(auto)]
// The host's side, which `host_c` exports to C: an entry is built; a completion, a List page and an Identify page are read. Each contract is one equation
// with a definition of `specs/`, refusals too, and asks nothing of the caller.
pub mod builder;
pub mod identities;
pub mod pages;
pub mod replies;
