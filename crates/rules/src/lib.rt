#![tactic(auto)]

// The rules of the calculus, the listing, draws and steps, and what is proved of them: definitions and theorems alone, no code.
