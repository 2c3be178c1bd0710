//! Tests of what threads share, the turn lock and the numbers of sessions, and of files in memory.
#![tactic(auto)]

#[cfg(test)]
mod tests;
