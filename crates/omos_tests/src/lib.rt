//! Tests of calls that no program shows: each public call that allocates, once with ample memory,
//! and tables of values that were worked out by hand.
#![tactic(auto)]

#[cfg(test)]
mod tests;
