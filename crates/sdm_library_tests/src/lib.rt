//! Tests of the crates from quantities up to stop certificates: what only a call of theirs shows. Those of `sdm_NAME`
//! stand in `tests/NAME.rt`. What the built program shows are its runs, in worked/. They are a crate of their own, so that
//! the crates below are proved once and not again with their tests.
#![tactic(auto)]

#[cfg(test)]
mod tests;
