//! The words after the program's name, and the commands that they ask for. A new command adds a variant and a shape.

ghost use Rattle.std.specs.Prelude.{◌≡◌, ◌≤◌, map, option_map, string_bytes, IfSome};
ghost use Rattle.sdm_rules.specs.Records.{most_records};
ghost use Rattle.sdm_run.specs.declared.words.Command.TheVariants.{Drive, Trial};
ghost use Rattle.sdm_run.specs.Shapes.{shape_of};
ghost use Rattle.sdm_run.specs.Words.{IsCommandInRange, alone, asked_by, certify_command, flat_command};
ghost use Rattle.sdm_run.specs.Words.{numbered_command};

use sdm_rules::{LONGEST_TRACK_CM, MOST_RECORDS};
use sdm_text::natural_in;

/// What the words ask for. (own)
#[derive(Clone, Copy, Debug, PartialEq, Eq)]
pub enum Command {
    /// `flat A END`: a deceleration in cm/s², from 5 to 400, and an end in cm, from 0 to 10,000,000.
    Flat { decel: u16, end_cm: u32 },
    /// `run`: the journey of the input.
    Run,
    /// `display`: what is shown of each reading of that journey.
    Display,
    /// `why`: the causes of each reading of that journey.
    Why,
    /// `trial NUMBER CYCLES`: a journey from a number, from 0 to 65,535, of so many readings, from 1 to 100,000.
    Trial { seed: u16, cycles: u32 },
    /// `upgrade`: the data of the input as a text of version 2.
    Upgrade,
    /// `drive NUMBER CYCLES`: a train that a number, from 0 to 65,535, drives over the data of the input, in so many
    /// steps, from 1 to 100,000.
    Drive { seed: u16, cycles: u32 },
    /// `certify N`: the certificates of the first N covered readings under a stop, N from 1 to 1,000.
    Certify { count: u16 },
    /// `check`: an answer for each claim of the certificate text of the input.
    Check,
}

impl Command {
    /// Whether it reads the input to its end. (own)
    pub fn reads_input(self) -> bool
        ensures { result ≡ (shape_of self).reads_input }
    {
        match self {
            Command::Flat { .. }
            | Command::Run
            | Command::Display
            | Command::Why
            | Command::Upgrade
            | Command::Drive { .. }
            | Command::Certify { .. }
            | Command::Check => true,
            Command::Trial { .. } => false,
        }
    }
}

/// The command of words; none where they have none of the shapes. (own)
#[tactic(auto, unfolding(crate::specs::Words::command_of))]
pub fn command_of(words: &[String]) -> Option<Command>
    ensures value { result ≡ asked_by words.now }
    ensures range { IfSome result IsCommandInRange }
{
    let (name, more) = words.split_first()?;
    match name.as_str() {
        "run" => alone(Command::Run, more),
        "display" => alone(Command::Display, more),
        "why" => alone(Command::Why, more),
        "flat" => flat_command(more),
        "trial" => trial_command(more),
        "upgrade" => alone(Command::Upgrade, more),
        "drive" => drive_command(more),
        "certify" => certify_command(more),
        "check" => alone(Command::Check, more),
        _ => None,
    }
}

/// A command with no words after it.
fn alone(command: Command, words: &[String]) -> Option<Command>
    requires { IsCommandInRange command }
    ensures value { result ≡ alone command (map string_bytes words.now) }
    ensures range { IfSome result IsCommandInRange }
{
    if words.is_empty() {
        Some(command)
    } else {
        None
    }
}

/// The two numbers of `flat`.
fn flat_command(words: &[String]) -> Option<Command>
    ensures value { result ≡ flat_command (map string_bytes words.now) }
    ensures range { IfSome result IsCommandInRange }
{
    let [decel, end] = words else { return None };
    let decel = natural_in(decel.as_str().as_bytes(), 5, 400).ok()?;
    let end_cm = natural_in(end.as_str().as_bytes(), 0, LONGEST_TRACK_CM).ok()?;
    Some(Command::Flat {
        decel: decel as u16,
        end_cm,
    })
}

/// A number, from 0 to 65,535, and a count of cycles, from 1 to 100,000.
fn seed_and_cycles(words: &[String]) -> Option<(u16, u32)>
    ensures value { numbered_command Trial (map string_bytes words.now) ≡ option_map (λ n. Trial n.0 n.1) result }
    ensures drive { numbered_command Drive (map string_bytes words.now) ≡ option_map (λ n. Drive n.0 n.1) result }
    ensures range { IfSome result (λ n. (n.0 ≤ 65_535) × (1 ≤ n.1) × (n.1 ≤ most_records)) }
{
    let [seed, cycles] = words else { return None };
    let seed = natural_in(seed.as_str().as_bytes(), 0, 65_535).ok()?;
    let cycles = natural_in(cycles.as_str().as_bytes(), 1, MOST_RECORDS).ok()?;
    Some((seed as u16, cycles))
}

/// The two numbers of `trial`.
fn trial_command(words: &[String]) -> Option<Command>
    ensures value { result ≡ numbered_command Trial (map string_bytes words.now) }
    ensures range { IfSome result IsCommandInRange }
{
    let (seed, cycles) = seed_and_cycles(words)?;
    Some(Command::Trial { seed, cycles })
}

/// The two numbers of `drive`.
fn drive_command(words: &[String]) -> Option<Command>
    ensures value { result ≡ numbered_command Drive (map string_bytes words.now) }
    ensures range { IfSome result IsCommandInRange }
{
    let (seed, cycles) = seed_and_cycles(words)?;
    Some(Command::Drive { seed, cycles })
}

/// The count of `certify`.
fn certify_command(words: &[String]) -> Option<Command>
    ensures value { result ≡ certify_command (map string_bytes words.now) }
    ensures range { IfSome result IsCommandInRange }
{
    let [count] = words else { return None };
    let count = natural_in(count.as_str().as_bytes(), 1, 1_000).ok()?;
    Some(Command::Certify {
        count: count as u16,
    })
}
