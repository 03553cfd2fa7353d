//! The law of the marks that the program makes, for any usable slopes. The function makes no call and only states its
//! law; that marks which hold stop every motion is a law of `sdm_laws`.

ghost use Rattle.sdm_certify.specs.Made.{LawOfMadeMarks};

/// The marks that the program makes hold, where the claim's front end with D_bec is at or before the computed place of
/// V_bec.
pub fn law_of_made_marks()
    ensures { LawOfMadeMarks }
{}
