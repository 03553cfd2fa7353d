//! The laws of the profile: proofs about its definitions alone. Each main law is the contract of a public function
//! with an empty body. Code crates cite the lemmas below them, in `proofs/`.
#![tactic(auto)]

pub mod certificates;
pub mod curves;
pub mod motions;
pub mod supervision;
