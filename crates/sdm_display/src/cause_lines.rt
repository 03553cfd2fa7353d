//! The causes of a reading as a line, in three parts: a row's buffer holds each of them, and not the whole line.

ghost use Rattle.std.specs.Prelude.{◌≡◌, ◌+◌, ◌≤◌, ◌++◌, [], length};
ghost use Rattle.sdm_causes.specs.Text.{brake_part, command_part, driver_part, standing_text, target_text};
ghost use Rattle.sdm_causes.specs.Text.{trigger_text, until_text};

use crate::display_lines::letter_of;
use sdm_causes::{Cause, Causes, PassedTarget, Standing, Until};
use sdm_report::fields::{put_count, put_number};
use sdm_text::{ROW_BYTES, RowBuf};

/// Puts the time, and why over and warn hold. (own)
pub fn put_driver_part(causes: &Causes, into: &mut RowBuf)
    requires { into.old ≡ [] }
    ensures { into.new ≡ driver_part causes.now }
{
    put_count(causes.time, into);
    into.byte(b',');
    put_trigger(causes.over, into);
    into.byte(b',');
    put_trigger(causes.warn, into);
}

/// Puts why serv and emer hold, behind the part before it. (own)
pub fn put_brake_part(causes: &Causes, into: &mut RowBuf)
    requires { into.old ≡ [] }
    ensures { into.new ≡ brake_part causes.now }
{
    into.byte(b',');
    put_trigger(causes.serv, into);
    into.byte(b',');
    put_trigger(causes.emer, into);
}

/// Puts how the commands stand and a line feed, behind the part before it. (own)
pub fn put_command_part(causes: &Causes, into: &mut RowBuf)
    requires { into.old ≡ [] }
    ensures { into.new ≡ command_part causes.now }
{
    into.byte(b',');
    put_standing(causes.tco, into);
    into.byte(b',');
    put_standing(causes.sb, into);
    into.byte(b',');
    put_standing(causes.eb, into);
    into.byte(b'\n');
}

/// Puts the words of the first cause of a trigger, `-` where it doesn't hold: at most 61 bytes.
#[tactic(auto, unfolding(sdm_causes::specs::Text::cause_text))]
fn put_trigger(cause: Option<Cause>, into: &mut RowBuf)
    requires room { length into.old + 61 ≤ ROW_BYTES }
    ensures text { into.new ≡ into.old ++ trigger_text cause }
    ensures short { length into.new ≤ length into.old + 61 }
{
    match cause {
        None => into.byte(b'-'),
        Some(Cause::Ceiling) => into.text(b"ceiling"),
        Some(Cause::Passed(target)) => put_target(target, into),
        Some(Cause::EndOfAuthority) => into.text(b"end of authority"),
        Some(Cause::ReleaseSpeed) => into.text(b"release speed"),
        Some(Cause::NoServiceBrake) => into.text(b"no service brake"),
    }
}

/// Puts the words of a target that is passed: at most 61 bytes.
fn put_target(target: PassedTarget, into: &mut RowBuf)
    requires room { length into.old + 61 ≤ ROW_BYTES }
    ensures text { into.new ≡ into.old ++ target_text target }
    ensures short { length into.new ≤ length into.old + 61 }
{
    into.text(b"target ");
    into.byte(letter_of(target.kind));
    into.byte(b' ');
    put_number(target.place, into);
    into.byte(b' ');
    put_count(u32::from(target.speed), into);
    into.byte(b' ');
    put_number(target.limit, into);
}

/// Puts how a command stands: at most 40 bytes.
#[tactic(auto, unfolding(sdm_causes::specs::Text::standing_text))]
fn put_standing(standing: Standing, into: &mut RowBuf)
    requires room { length into.old + 40 ≤ ROW_BYTES }
    ensures text { into.new ≡ into.old ++ standing_text standing }
    ensures short { length into.new ≤ length into.old + 40 }
{
    match standing {
        Standing::Off => into.text(b"off"),
        Standing::Set => into.text(b"set"),
        Standing::Held(until) => {
            into.text(b"held until ");
            put_until(until, into);
        }
    }
}

/// Puts what releases a command: at most 29 bytes.
#[tactic(auto, unfolding(sdm_causes::specs::Text::until_text))]
fn put_until(until: Until, into: &mut RowBuf)
    requires room { length into.old + 29 ≤ ROW_BYTES }
    ensures text { into.new ≡ into.old ++ until_text until }
    ensures short { length into.new ≤ length into.old + 29 }
{
    match until {
        Until::PermittedSpeed => into.text(b"permitted speed"),
        Until::Standstill => into.text(b"standstill"),
        Until::StandstillOrPermittedSpeed => into.text(b"standstill or permitted speed"),
    }
}
