#![tactic(auto)]
// The pages that host and module exchange: the List page, the Identify page. Each contract is one equation with a definition of `specs/`, at one a bound
// beside it.
pub mod entries;
pub mod identify;
pub mod pages;
