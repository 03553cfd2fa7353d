//! Stop certificates: marks along the track that show, with no brake curve, that every motion from a claim stops in
//! time. Whoever made the marks, a checker needs the map, the claim and the marks alone.
#![tactic(auto)]

mod answers;
mod certificates;
mod checker;
mod fields;
mod forms;
mod holding;
pub mod laws;
mod lines;
mod made;
mod map_text;
mod marks;
mod reach;
mod steps;
mod written_claims;
mod written_fields;
mod written_map;

pub use answers::{Answer, CheckFault};
pub use certificates::{Certificate, certificate_of};
pub use checker::Checker;
pub use holding::holds;
pub use lines::BadLine;
pub use made::marks_of;
pub use marks::Marks;
pub use sdm_rules::{Claim, Mark};
pub use written_claims::{answer_line, claim_line, mark_line};
pub use written_map::{map_line, map_lines};
