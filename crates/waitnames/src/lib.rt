#![tactic(auto)]

// Names of waits and their numbers: definitions and theorems, no code.
