//! What the program says of itself.

ghost use Rattle.std.specs.Prelude.{◌≡◌, ◌≢◌, ◌⊎◌};
ghost use Rattle.std.specs.Io.KnownBytes.{Appends};
ghost use Rattle.sdm_io.specs.Causes.{Rose};
ghost use Rattle.sdm_io.specs.Told.{AppendsPart, HoldsNothing};
ghost use Rattle.sdm_words.specs.Abouts.{text_of};

use crate::texts::TEXTS;
use sdm_io::{Sink, write_piece};
use sdm_report::Outcome;

/// What the program is asked about itself. (own)
#[derive(Clone, Copy, Debug, PartialEq, Eq)]
pub enum About {
    /// Its version, and the toolchain's.
    Version,
    /// Its commands, and the units of a reading.
    Help,
}

/// The text.
#[tactic(auto, unfolding(crate::specs::Abouts::text_of))]
fn text_of(about: About) -> &'static str
    ensures { result.now ≡ text_of about }
{
    match about {
        About::Version => TEXTS[0],
        About::Help => TEXTS[1],
    }
}

/// Writes what the program says of itself: WriteFault where out failed, else Done. (own)
pub fn tell_about<O: Sink>(about: About, out: &mut O) -> Outcome
    ensures possible { (result ≡ Outcome.Done) ⊎ (result ≡ Outcome.WriteFault) }
    ensures whole { result ≡ Outcome.Done → Appends (O.taken out.old) (O.taken out.new) (text_of about) }
    ensures part { result ≡ Outcome.WriteFault → AppendsPart (O.taken out.old) (O.taken out.new) (text_of about) }
    ensures given_on { result ≡ Outcome.Done → HoldsNothing (O.held out.new) }
    ensures fault { result ≡ Outcome.WriteFault → Rose (O.faults out.old) (O.faults out.new) }
{
    let Ok(()) = write_piece(out, text_of(about).as_bytes()) else {
        return Outcome::WriteFault;
    };
    let Ok(()) = out.flush() else {
        return Outcome::WriteFault;
    };
    Outcome::Done
}
