//! The law of stop certificates, for any usable slopes and every scale of motions. The function makes no call and only
//! states its law.

ghost use Rattle.sdm_rules.specs.Certificates.{LawOfMarks};

/// Where marks hold for a claim, every motion from the claim has all its points at or before the claim's place,
/// whoever made the marks.
pub fn law_of_marks()
    ensures { LawOfMarks }
{}
