//! Where the data part of an input ends and where its records begin.

ghost use Rattle.std.specs.Prelude.{◌≡◌, ◌≤◌, IfSome, length};
ghost use Rattle.sdm_data.specs.Division.{divide, is_dividing_line};

use sdm_text::split_line;

/// The offset at which the data part ends, and the one at which the records begin: those of the dividing line and of
/// the byte after it. The dividing line is the first line that is exactly `%%`, ended by LF, by CR and LF, or by the
/// end of the input; None exactly where there is no such line. (own)
#[tactic(auto, using(crate::proofs::LinesOfInput::divisions))]
pub fn split(input: &[u8]) -> Option<(usize, usize)>
    ensures value { result ≡ divide input.now }
    ensures within { IfSome result (λ ends. (ends.0 ≤ ends.1) × (ends.1 ≤ length input.now)) }
{
    let mut rest = input;
    while let Some((line, after)) = split_line(rest) {
        if is_dividing_line(line) {
            return Some((input.len() - rest.len(), input.len() - after.len()));
        }
        rest = after;
    }
    None
}

/// The line is `%%`, with one of the ends that a line may have.
fn is_dividing_line(line: &[u8]) -> bool
    ensures { result ≡ is_dividing_line line.now }
{
    line == b"%%\n".as_slice() || line == b"%%\r\n".as_slice() || line == b"%%".as_slice()
}
