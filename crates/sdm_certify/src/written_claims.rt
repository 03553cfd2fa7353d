//! A claim and its marks as lines, and the answer to a claim.

ghost use Rattle.std.specs.Prelude.{◌≡◌, [], ◌≤◌, Some};
ghost use Rattle.std.specs.Io.BufRead.{strip_last};
ghost use Rattle.sdm_rules.specs.Certificates.{IsClaimInRange, IsMarkInRange};
ghost use Rattle.sdm_certify.specs.Checker.{answer_text};
ghost use Rattle.sdm_certify.specs.Lines.{claim_of, mark_of};
ghost use Rattle.sdm_certify.specs.WrittenLines.{claim_text, mark_text};

use crate::answers::Answer;
use crate::written_fields::{add_count, add_number, add_wide};
use sdm_report::fields::put_count;
use sdm_rules::{Claim, Mark};
use sdm_text::RowBuf;

/// Puts the line of a claim with so many marks. A checker reads it as that claim. (own)
#[tactic(auto, unfolding(crate::specs::WrittenLines::claim_text))]
pub fn claim_line(claim: &Claim, marks: u32, into: &mut RowBuf)
    requires empty { into.old ≡ [] }
    ensures text { into.new ≡ claim_text claim.now marks }
    ensures read_back { IsClaimInRange claim.now → 1 ≤ marks → marks ≤ 4_000 →
        claim_of (strip_last 10 into.new) ≡ Some (record { claim = claim.now; marks = marks }) }
{
    into.text(b"claim");
    add_count(claim.time, into);
    add_number(claim.front.grains(), into);
    add_count(claim.speed.notches(), into);
    add_count(u32::from(claim.accel1), into);
    add_count(u32::from(claim.accel2), into);
    add_count(claim.traction, into);
    add_count(claim.berem, into);
    add_number(claim.svl.grains(), into);
    add_count(marks, into);
    into.byte(b'\n');
}

/// Puts the line of a mark. A checker reads it as that mark. (own)
#[tactic(auto, unfolding(crate::specs::WrittenLines::mark_text))]
pub fn mark_line(mark: &Mark, into: &mut RowBuf)
    requires empty { into.old ≡ [] }
    ensures text { into.new ≡ mark_text mark.now }
    ensures read_back { IsMarkInRange mark.now → mark_of (strip_last 10 into.new) ≡ Some mark.now }
{
    into.text(b"mark");
    add_number(mark.place, into);
    add_wide(mark.energy, into);
    into.byte(b'\n');
}

/// Puts the answer to a claim: its time, and `yes` or `no`. (own)
#[tactic(auto, unfolding(crate::specs::Checker::answer_text))]
pub fn answer_line(answer: &Answer, into: &mut RowBuf)
    requires empty { into.old ≡ [] }
    ensures { into.new ≡ answer_text answer.now }
{
    put_count(answer.time, into);
    into.byte(b',');
    if answer.yes {
        into.text(b"yes");
    } else {
        into.text(b"no");
    }
    into.byte(b'\n');
}
