#![tactic(auto)]
// Definitions and theorems only: what a driver may rely on of the Identify page and of the creation of a namespace.
