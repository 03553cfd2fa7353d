//! What holds of what is due, whatever takes the lines.

ghost use Rattle.std.specs.Prelude.{◌≡◌, ◌++◌, ℕ, List};
ghost use Rattle.sdm_live.specs.ByLines.{answers, lines_of};
ghost use Rattle.sdm_live.specs.Progress.{due, whole};
ghost use Rattle.sdm_live.specs.Taken.{Begins};

use crate::lines::Step;

/// What is due. (own)
pub fn law_of_due<S: Step>(_of: &S)
    // the whole text is one answer to each line, one after the other
    ensures lines { (state : S) (bytes : List ℕ)
        → whole S.rules state bytes ≡ answers S.rules state (lines_of bytes) }

    // what is due now begins what is due later, and begins the whole text, whatever follows
    ensures later { (state : S) (bytes more : List ℕ)
        → Begins (due S.rules state bytes) (due S.rules state (bytes ++ more)) }
    ensures end { (state : S) (bytes more : List ℕ)
        → Begins (due S.rules state bytes) (whole S.rules state (bytes ++ more)) }
{}
