//! Changes of data in motion: journeys over several data parts, and the laws that what is promised of a journey is
//! promised over each change too. What is taken over at a change is a definition of the profile.
#![tactic(auto)]

pub mod laws;
mod refusals;

pub use refusals::Refusal;
