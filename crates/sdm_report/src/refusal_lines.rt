//! What is told of an opening or a record that is refused.

ghost use Rattle.std.specs.Prelude.{◌≡◌, ◌+◌, ◌≤◌, ◌++◌, codes, decimal, length};
ghost use Rattle.std.specs.Fmt.{signed_decimal};
ghost use Rattle.sdm_formats.specs.FaultLines.{authority_text, cause_text, field_text, form_text, kind_text, open_text};
ghost use Rattle.sdm_formats.specs.FaultLines.{restrict_text, revoke_text};

use crate::fields::{put_count, put_number};
use sdm_rules::{
    AuthorityFault, EventCause, EventFault, FieldFault, OpenFault, RestrictFault, RevokeFault,
    SlopeKind,
};
use sdm_text::{ROW_BYTES, RowBuf};

/// Puts why an opening is refused; of want of memory its own text: at most 80 bytes. (own)
#[tactic(auto, unfolding(sdm_formats::specs::FaultLines::open_text, sdm_formats::specs::FaultLines::memory_text))]
pub fn put_open_fault(fault: OpenFault, into: &mut RowBuf)
    requires room { length into.old + 80 ≤ ROW_BYTES }
    ensures text { into.new ≡ into.old ++ open_text fault }
    ensures short { length into.new ≤ length into.old + 80 }
{
    match fault {
        OpenFault::TooWeak {
            kind,
            band,
            cell,
            ..
        } => {
            put_band(b"refused: too weak: ", kind, band, into);
            into.text(b" cell ");
            put_cell(cell, into);
        }
        OpenFault::TooVaried { kind, band, .. } => {
            put_band(b"refused: too varied: ", kind, band, into)
        }
        OpenFault::BadAuthority(fault) => {
            into.text(b"refused: ");
            into.text(authority_text(fault));
        }
        OpenFault::Memory => into.text(b"no memory"),
    }
}

/// Words, and the kind of slope and the band of which they speak.
fn put_band(words: &[u8], kind: SlopeKind, band: u32, into: &mut RowBuf)
    requires few { length words.now ≤ 25 }
    requires room { length into.old + 80 ≤ ROW_BYTES }
    ensures text { into.new ≡ into.old ++ (words.now ++ kind_text kind ++ codes " band " ++ decimal band) }
    ensures short { length into.new ≤ length into.old + 50 }
{
    into.text(words);
    into.text(kind_text(kind));
    into.text(b" band ");
    put_count(band, into);
}

/// A cell of the track.
fn put_cell(cell: i32, into: &mut RowBuf)
    requires room { length into.old + 20 ≤ ROW_BYTES }
    ensures text { into.new ≡ into.old ++ signed_decimal cell }
    ensures short { length into.new ≤ length into.old + 20 }
{
    put_number(i64::from(cell), into);
}

#[tactic(auto, unfolding(sdm_formats::specs::FaultLines::kind_text))]
fn kind_text(kind: SlopeKind) -> &'static [u8]
    ensures text { result.now ≡ kind_text kind }
    ensures short { length result.now ≤ 8 }
{
    match kind {
        SlopeKind::Safe => b"safe",
        SlopeKind::Expected => b"expected",
        SlopeKind::Normal => b"normal",
    }
}

/// Puts why a record or a line is refused: at most 60 bytes. (own)
#[tactic(auto, unfolding(sdm_formats::specs::FaultLines::cause_text))]
pub fn put_cause(cause: EventCause, into: &mut RowBuf)
    requires room { length into.old + 60 ≤ ROW_BYTES }
    ensures text { into.new ≡ into.old ++ cause_text cause }
    ensures short { length into.new ≤ length into.old + 60 }
{
    match cause {
        EventCause::Form(fault) => put_form_fault(fault, into),
        EventCause::Authority(fault) => into.text(authority_text(fault)),
        EventCause::BadTrip => into.text(b"bad trip place"),
        EventCause::Restrict(fault) => into.text(restrict_text(fault)),
        EventCause::Revoke(fault) => into.text(revoke_text(fault)),
        EventCause::TimeBack { .. } => into.text(b"time back"),
        EventCause::Line => into.text(b"line"),
    }
}

#[tactic(auto, unfolding(sdm_formats::specs::FaultLines::form_text))]
fn put_form_fault(fault: EventFault, into: &mut RowBuf)
    requires room { length into.old + 60 ≤ ROW_BYTES }
    ensures text { into.new ≡ into.old ++ form_text fault }
    ensures short { length into.new ≤ length into.old + 60 }
{
    match fault {
        EventFault::UnknownKind => into.text(b"unknown kind"),
        EventFault::FieldCount => into.text(b"field count"),
        EventFault::Field { column, fault } => {
            into.text(b"field ");
            put_count(column, into);
            into.text(b": ");
            into.text(field_text(fault));
        }
        EventFault::TooMany => into.text(b"too many events"),
    }
}

#[tactic(auto, unfolding(sdm_formats::specs::FaultLines::field_text))]
fn field_text(fault: FieldFault) -> &'static [u8]
    ensures text { result.now ≡ field_text fault }
    ensures short { length result.now ≤ 30 }
{
    match fault {
        FieldFault::NotNumber => b"not a number",
        FieldFault::OutOfRange => b"out of range",
    }
}

#[tactic(auto, unfolding(sdm_formats::specs::FaultLines::authority_text))]
fn authority_text(fault: AuthorityFault) -> &'static [u8]
    ensures text { result.now ≡ authority_text fault }
    ensures short { length result.now ≤ 30 }
{
    match fault {
        AuthorityFault::SvlBeforeEoa => b"supervised location before end",
        AuthorityFault::BeyondTrack => b"beyond track",
        AuthorityFault::BadSpeed => b"bad speed",
    }
}

#[tactic(auto, unfolding(sdm_formats::specs::FaultLines::restrict_text))]
fn restrict_text(fault: RestrictFault) -> &'static [u8]
    ensures text { result.now ≡ restrict_text fault }
    ensures short { length result.now ≤ 30 }
{
    match fault {
        RestrictFault::Full => b"too many restrictions",
        RestrictFault::IdInUse { .. } => b"identity in use",
        RestrictFault::Value => b"restriction value",
    }
}

#[tactic(auto, unfolding(sdm_formats::specs::FaultLines::revoke_text))]
fn revoke_text(fault: RevokeFault) -> &'static [u8]
    ensures text { result.now ≡ revoke_text fault }
    ensures short { length result.now ≤ 30 }
{
    match fault {
        RevokeFault::Unknown { .. } => b"identity unknown",
    }
}
