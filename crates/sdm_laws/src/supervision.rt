//! The laws of openings and of supervision: of every accepted supervision state and reading, and of every list of
//! records. Each function makes no call and only states its clause.

ghost use Rattle.sdm_laws.specs.Falls.{LawOfFalls};
ghost use Rattle.sdm_laws.specs.PrintedLimits.{LawOfPrintedLimits};
ghost use Rattle.sdm_laws.specs.SupervisionLaws.{IsKeptOpen, LawOfAcceptedSlopes, LawOfCeiling, LawOfCommand};
ghost use Rattle.sdm_laws.specs.SupervisionLaws.{LawOfGaps, LawOfJourneys, LawOfLimits, LawOfMachines, LawOfNearness};
ghost use Rattle.sdm_laws.specs.SupervisionLaws.{LawOfOpening};
ghost use Rattle.sdm_laws.specs.SupervisionLaws.{LawOfPassing, LawOfReleaseSpeed, LawOfReleaseStart, LawOfStop};
ghost use Rattle.sdm_laws.specs.SupervisionLaws.{LawOfSupervision, LawOfWithin};
ghost use Rattle.sdm_laws.specs.TripPlaces.{LawOfCalculatedTrips, LawOfTripPlaces};

/// The slopes of accepted data are usable: brake curves on them have their laws.
#[tactic(auto, using(crate::proofs::Openings::AcceptedSlopes::accepted_usable))]
pub fn law_of_accepted_slopes()
    ensures { LawOfAcceptedSlopes }
{}

/// Each opening is accepted or has one first fault.
pub fn law_of_opening()
    ensures { LawOfOpening }
{}

/// What the opening accepts stays so over every record.
#[tactic(auto, using(crate::proofs::Rows::Headline::kept_open))]
pub fn law_of_openings()
    ensures { IsKeptOpen }
{}

/// On accepted slopes each computed place of a curve lies less than a millimetre before the exact one, and never past
/// it.
#[tactic(auto, using(crate::proofs::Rows::Headline::nearness))]
pub fn law_of_nearness()
    ensures { LawOfNearness }
{}

/// Each computed limit of a target, and the computed start of release speed monitoring, is at most the exact one and
/// less than a millimetre before it.
pub fn law_of_limits()
    ensures { LawOfLimits }
{}

/// Each printed limit of a row is at or before the exact limits that it is printed of, and less than two millimetres
/// before the least of them.
#[tactic(auto, using(crate::proofs::Rows::PrintedLimits::printed_limits))]
pub fn law_of_printed_limits()
    ensures { LawOfPrintedLimits }
{}

/// Over each reading the commands of the exact machine, the supervisor and the early machine stay in order.
#[tactic(auto, using(crate::proofs::Rows::Headline::machines))]
pub fn law_of_machines()
    ensures { LawOfMachines }
{}

/// From every covered row each motion stops by the supervised location and meets each speed target.
#[tactic(auto, using(crate::proofs::Rows::Headline::stop))]
pub fn law_of_stop()
    ensures { LawOfStop }
{}

/// From every reading within the SvL each motion stops at or before it.
pub fn law_of_within()
    ensures { LawOfWithin }
{}

/// Where a moving train is not within the SvL, the emergency brake is commanded.
#[tactic(auto, using(crate::proofs::Rows::WithinSvl::commanded))]
pub fn law_of_command()
    ensures { LawOfCommand }
{}

/// Why a row is not covered where no emergency brake is commanded.
#[tactic(auto, using(crate::proofs::Rows::Gaps::gaps))]
pub fn law_of_gaps()
    ensures { LawOfGaps }
{}

/// How fast the train runs where no emergency brake is commanded.
#[tactic(auto, using(crate::proofs::Rows::Ceiling::within_ceiling))]
pub fn law_of_ceiling()
    ensures { LawOfCeiling }
{}

/// From a covered row without an emergency command every motion meets each fall of the speed profile that isn't behind
/// the min safe front end: no fall drops out of the promise before the train has passed it.
pub fn law_of_falls()
    ensures { LawOfFalls }
{}

/// When release speed monitoring begins.
#[tactic(auto, using(crate::proofs::Rows::Headline::release))]
pub fn law_of_release_start()
    ensures { LawOfReleaseStart }
{}

/// What a calculated release speed is worth: tripped at it a train stops before the supervised location, and it is the
/// greatest such speed but for a millimetre.
#[tactic(auto, using(crate::proofs::Rows::CalculatedRelease::release_speed_is))]
pub fn law_of_release_speed()
    ensures { LawOfReleaseSpeed }
{}

/// A release speed has a trip place exactly where the place W past the EOA is one.
#[tactic(auto, using(crate::proofs::Rows::TripPlaces::trip_places))]
pub fn law_of_trip_places()
    ensures { LawOfTripPlaces }
{}

/// A calculated release speed has the trip place that it is calculated for.
#[tactic(auto, using(crate::proofs::Rows::TripPlaces::calculated_trips))]
pub fn law_of_calculated_trips()
    ensures { LawOfCalculatedTrips }
{}

/// A faster train passes every limit that a slower one would pass where it is, and a standing one none.
pub fn law_of_passing()
    ensures { LawOfPassing }
{}

/// The headline of one reading: the commands stay in order, and a covered row is safe.
pub fn law_of_supervision()
    ensures { LawOfSupervision }
{}

/// The headline over every journey, from an accepted supervision state on.
pub fn law_of_journeys<Record>()
    ensures { LawOfJourneys Record }
{}
