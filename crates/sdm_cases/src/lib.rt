//! Worked cases of the profile: what a definition gives at numbers, each worked by hand, and what a promise says and
//! excludes of one reading or of two. The prover computes them, so another text of a definition breaks one. They stand
//! in `proofs/`, in a crate on which only the example computer stands, `sdm_onboard`, whose own cases take their trains
//! from here: a further case proves nothing else again.
#![tactic(auto)]
