#![tactic(auto)]

// Scripts of calls: what their bytes ask for.
pub mod bytes;
pub mod line;
pub mod script;
#[cfg(test)]
mod tests;
pub mod two;
