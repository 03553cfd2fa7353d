//! What a row promises beside the headline: all its commands, the EOA by the service brake, and limits that are no
//! earlier than they must be. Proofs about the definitions alone.
#![tactic(auto)]

pub mod laws;
