//! How the program ends.

ghost use Rattle.std.specs.Prelude.{◌≡◌};

use sdm_formats::{DataFault, DriveCause};
use sdm_rules::{EventCause, OpenFault};
use thiserror::Error;

/// Why the data part of an input is refused. (own)
#[derive(Clone, Copy, Debug, PartialEq, Eq, Error)]
pub enum InputFault {
    /// No line divides the data part from the records.
    #[error("no dividing line")]
    NoSplit,
    /// The data part is no TOML document.
    #[error("no TOML document")]
    Toml,
    /// The data part breaks a rule; this is the first.
    #[error("{0}")]
    Data(DataFault),
}

/// How the program ended. (own)
#[derive(Clone, Copy, Debug, PartialEq, Eq)]
pub enum Outcome {
    /// The input was read to its end, and its text is written.
    Done,
    /// The words have none of the shapes of a command.
    Usage,
    /// The input failed.
    ReadFault,
    /// The output failed.
    WriteFault,
    /// More bytes came than an input may have.
    TooLong,
    /// The data part is refused.
    BadData(InputFault),
    /// The opening is refused: the slopes of the data, or the first authority.
    Refused(OpenFault),
    /// A record or line is refused; `number` counts from 1.
    BadEvent { number: u32, cause: EventCause },
    /// Memory was refused.
    Memory,
    /// The data can't be driven.
    Undrivable(DriveCause),
}

impl Outcome {
    ghost use Rattle.sdm_report.specs.OutcomeLines.{exit_code};

    /// The exit status: 0 to 9 in the order of the variants. (own)
    pub fn code(&self) -> u8
        ensures { result ≡ exit_code self.now }
    {
        match self {
            Outcome::Done => 0,
            Outcome::Usage => 1,
            Outcome::ReadFault => 2,
            Outcome::WriteFault => 3,
            Outcome::TooLong => 4,
            Outcome::BadData(_) => 5,
            Outcome::Refused(_) => 6,
            Outcome::BadEvent { .. } => 7,
            Outcome::Memory => 8,
            Outcome::Undrivable(_) => 9,
        }
    }
}
