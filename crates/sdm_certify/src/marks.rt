//! The marks of a certificate, as a list.

ghost use Rattle.std.specs.Prelude.{◌≡◌};
ghost use Rattle.sdm_certify.specs.Made.{AreMarksInRange};

use sdm_rules::Mark;
use std::marker::Model;

/// Marks by rising place: 1 to 4,000 of them, each in the ranges of its line. (own)
#[derive(Drop)]
pub struct Marks {
    marks: Vec<Mark>,
}

impl Model for Marks {
    ghost use Rattle.std.specs.Prelude.{List};
    ghost use Rattle.sdm_rules.specs.declared.certificates.Mark.{Mark};
    ghost use Rattle.sdm_certify.specs.Made.{AreMarksInRange};

    ghost Value = { List Mark };

    ghost view = { λ m. m.marks.items };

    ghost invariant = { λ m. AreMarksInRange m.marks.items };
}

impl Marks {
    /// These marks as a list of a certificate.
    pub(crate) fn new(marks: Vec<Mark>) -> Marks
        requires { AreMarksInRange marks.items }
        ensures { result ≡ marks.items }
    {
        Marks { marks }
    }

    /// The marks, the first one first.
    pub fn get(&self) -> &[Mark]
        ensures value { result.now ≡ self.now }
        ensures range { AreMarksInRange self.now }
    {
        self.marks.as_slice()
    }
}
