//! The words of a call, from the bytes in which they come.

ghost use Rattle.std.specs.Prelude.{◌≡◌, ◌∷◌, ◌++◌, [], map, string_bytes, IfOk, OnOk};
ghost use Rattle.std.specs.Str.Lossy.{utf8_lossy};
ghost use Rattle.sdm_calls.specs.Words.{words_in};

use sdm_num::NoMemory;
use std::alloc::Global;

/// One word more.
fn push_word(alloc: Global, words: &mut Vec<String>, word: &[u8]) -> Result<(), NoMemory>
    ensures { OnOk result
        (map string_bytes words.new.items ≡ map string_bytes words.old.items ++ utf8_lossy word.now ∷ []) }
{
    let text = String::from_utf8_lossy(alloc, word)?;
    words.push(text)?;
    Ok(())
}

/// The words that bytes are. Errors: memory alone. (own)
pub fn words_of(alloc: Global, given: &[u8]) -> Result<Vec<String>, NoMemory>
    ensures { IfOk result (λ words. map string_bytes words.items ≡ words_in given.now) }
{
    let mut words = Vec::new(alloc);
    let mut word = Vec::new(alloc);
    for byte in given {
        if *byte == 0 {
            push_word(alloc, &mut words, &word)?;
            word.clear();
        } else {
            word.push(*byte)?;
        }
    }
    push_word(alloc, &mut words, &word)?;
    Ok(words)
}
