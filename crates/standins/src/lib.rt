#![tactic(auto)]
// Definitions and theorems only: the demands on a device, and the stand-ins that lack one.
