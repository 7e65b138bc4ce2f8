#![tactic(auto)]

// The steady profile: texts whose continuations leave at most one process. Definitions and theorems alone, no code.
