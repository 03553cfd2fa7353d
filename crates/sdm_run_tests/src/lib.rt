//! Tests of streams, of the data part, of records, of generated journeys, and of the commands from words and bytes to bytes
//! and an outcome. They are a crate of their own, so that the crates below are proved once and not again with their tests.
#![tactic(auto)]

#[cfg(test)]
mod tests;
