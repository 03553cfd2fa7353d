//! Worked cases of what `live` owes its peer: lines and fields at texts worked by hand, what is due of them, and
//! histories that are prompt or aren't. They stand in `proofs/`, in a crate that no other stands on: a further case
//! proves nothing else again.
#![tactic(auto)]
