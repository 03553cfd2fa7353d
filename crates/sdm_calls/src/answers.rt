//! The answer to words over an input, to any sink.

ghost use Rattle.std.specs.Prelude.{◌≡◌, ◌≢◌, ◌⊎◌, Some, []};
ghost use Rattle.sdm_io.specs.Causes.{Rose};
ghost use Rattle.sdm_run.specs.Answers.{IsAnswer};
ghost use Rattle.sdm_calls.specs.Calls.{AsksNothing, OfOutputIn};

use crate::gathered::Gathered;
use crate::words::words_of;
use sdm_io::{FixedSource, NullSink, Sink};
use sdm_report::Outcome;
use sdm_run::sdm_main;
use sdm_words::{Asked, asked_of, tell_about};
use std::alloc::Global;

/// The outcome of words over the bytes of an input, whose text goes to a sink. `live` is no word of these calls: it has some
/// of its own. (own)
pub fn answered<O: Sink>(alloc: Global, words: &[u8], input: &[u8], out: &mut O) -> Outcome
    ensures answer { OfOutputIn words.now input.now
        (λ output. IsAnswer output (O.taken out.old) (O.taken out.new) result) }
    ensures usage { result ≡ Outcome.Usage → AsksNothing words.now }
    ensures nothing { AsksNothing words.now → ((result ≡ Outcome.Usage) ⊎ (result ≡ Outcome.Memory)) × (out.new ≡ out.old) }
    ensures no_reading { result ≢ Outcome.ReadFault }
    ensures write { result ≡ Outcome.WriteFault → Rose (O.faults out.old) (O.faults out.new) }
{
    let Ok(words) = words_of(alloc, words) else {
        return Outcome::Memory;
    };
    match asked_of(&words) {
        Asked::Live => Outcome::Usage,
        Asked::About(about) => tell_about(about, out),
        Asked::Command => {
            let mut source = FixedSource::new(input);
            sdm_main(alloc, &words, &mut source, out, &mut NullSink::new())
        }
    }
}

/// The same, with the text gathered in memory.
pub fn gathered_answer(alloc: Global, words: &[u8], input: &[u8]) -> (Outcome, Gathered)
    ensures answer { OfOutputIn words.now input.now
        (λ output. IsAnswer output (Some []) (Some result.1.taken) result.0) }
    ensures usage { result.0 ≡ Outcome.Usage → AsksNothing words.now }
    ensures nothing { AsksNothing words.now →
        ((result.0 ≡ Outcome.Usage) ⊎ (result.0 ≡ Outcome.Memory)) × (result.1.taken ≡ []) }
    ensures no_reading { result.0 ≢ Outcome.ReadFault }
{
    let mut text = Gathered::new(alloc);
    let outcome = answered(alloc, words, input, &mut text);
    (outcome, text)
}
