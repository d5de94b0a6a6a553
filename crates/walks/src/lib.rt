#![tactic(auto)]
// Definitions and a theorem only: what a walk by List finds.
