#![tactic(auto)]

// Tests of the readers of crate syntax that take where they stand by value: each reads a few tokens, and its answer is compared with numbers counted by hand.
#[cfg(test)]
mod braced;
#[cfg(test)]
mod entries;
#[cfg(test)]
mod line;
#[cfg(test)]
mod process;
