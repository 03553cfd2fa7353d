//! Worked cases of what the commands promise: of each promise that the top call makes something that follows from it,
//! at numbers where it speaks of some, so that a text which promises less breaks one. They stand in `proofs/`, in a
//! crate that no other stands on: a further case proves nothing else again.
#![tactic(auto)]
