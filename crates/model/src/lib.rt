#![tactic(auto)]

// What a model text means: limits, names, the resolved model. Definitions and theorems; of code only the limits that several crates ask about.
#[derive(Clone, Copy)]
pub struct Limits;

impl Limits {
    // Processes of a state (10, 11, 18).
    pub const PROCESSES: usize = 256;

    // Definitions of a text (7), and numbers of a report.
    pub const DEFINITIONS: usize = 64;

    // Locals in scope together (7), and of a process.
    pub const LOCALS: usize = 8;

    // Branches of a sum (7).
    pub const BRANCHES: usize = 16;

    // A sum's scope is one number: its locals, and its definition so many times.
    pub const SCOPE: usize = 16;
}
