#![tactic(auto)]

// What a walk of a bounded number of states comes to, over any states and moves: definitions and theorems, no code.
