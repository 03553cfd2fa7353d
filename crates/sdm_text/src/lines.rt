//! Lines of a text and fields of a line, taken off one by one.

ghost use Rattle.std.specs.Prelude.{◌≡◌, ◌+◌, ◌<◌, ◌∷◌, [], IfSome, IfNone, length};
ghost use Rattle.std.specs.Io.BufRead.{strip_last};
ghost use Rattle.sdm_formats.specs.Lines.{comma_fields, ended_lines};

use memchr::memchr;

/// The first line of a text, with the LF that ends it, and the text after it; none of a text that is empty. (own)
#[tactic(auto, using(crate::proofs::FirstPieces::found_line, crate::proofs::FirstPieces::whole_line))]
#[inline(always)]
pub fn split_line(text: &[u8]) -> Option<(&[u8], &[u8])>
    ensures line { IfSome result (λ cut. ended_lines text.now ≡ cut.0.now ∷ ended_lines cut.1.now) }
    ensures some { IfSome result (λ cut. 0 < length cut.0.now) }
    ensures whole { IfSome result (λ cut. length cut.0.now + length cut.1.now ≡ length text.now) }
    ensures none { IfNone result (text.now ≡ []) }
{
    if text.is_empty() {
        return None;
    }
    match memchr(b'\n', text) {
        Some(at) => Some(text.split_at(at + 1)),
        None => Some((text, &[])),
    }
}

/// A line without the LF that ends it. (own)
pub fn without_lf(line: &[u8]) -> &[u8]
    ensures { result.now ≡ strip_last 10 line.now }
{
    match line {
        [text @ .., b'\n'] => text,
        _ => line,
    }
}

/// The first field of a line, and the line after the comma that ends it; none where the line is one field. (own)
pub fn split_field(line: &[u8]) -> Option<(&[u8], &[u8])>
    ensures field { IfSome result (λ cut. comma_fields line.now ≡ cut.0.now ∷ comma_fields cut.1.now) }
    ensures none { IfNone result (comma_fields line.now ≡ line.now ∷ []) }
{
    for (at, byte) in line.iter().enumerate() {
        if *byte == b',' {
            return Some((&line[..at], &line[at + 1..]));
        }
    }
    None
}
