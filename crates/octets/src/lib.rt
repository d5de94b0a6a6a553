#![tactic(auto)]
// Bytes in slices: little-endian words, runs of bytes. Each contract is one equation on the lists at entry and exit, in the words of
// `specs/Octets.antt`. A place stands beside the slice, and no subslice for both: a caller's clause speaks of the whole slice, by `put`.
pub mod runs;
pub mod words;
