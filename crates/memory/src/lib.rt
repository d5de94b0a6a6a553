#![tactic(auto)]
// The two slices whole: the head, and where each namespace's parts lie. The crates above are lent directory, values and data buffer one by one, and
// pass them on so: a type for them would be two, one that reads and one that writes, and each clause would still name each slice.
pub mod labels;
pub mod permits;
