//! The laws of rows: proofs about definitions alone. Each function makes no call and only states its law.

ghost use Rattle.sdm_row_laws.specs.AllCommands.{LawOfAllCommands, LawOfAllJourneys};
ghost use Rattle.sdm_row_laws.specs.AllCommands.{LawOfEmergencyOrder, LawOfRowMachine};
ghost use Rattle.sdm_row_laws.specs.Clearances.{LawOfClearStops};
ghost use Rattle.sdm_row_laws.specs.CoveredFalls.{LawOfCoveredFalls, LawOfFreeFalls};
ghost use Rattle.sdm_row_laws.specs.OpenTurns.{LawOfCoveredFallJourneys, LawOfFallJourneys};
ghost use Rattle.sdm_row_laws.specs.OpenTurns.{LawOfLimitJourneys, LawOfOpenTurns};
ghost use Rattle.sdm_row_laws.specs.OpenTurns.{LawOfPromisedTurns, LawOfServiceJourneys, LawOfShownJourneys};
ghost use Rattle.sdm_row_laws.specs.ReleaseLimits.{LawOfExactStart, LawOfExactTrip};
ghost use Rattle.sdm_row_laws.specs.ReleaseLimits.{LawOfTightRelease, LawOfTightStart};
ghost use Rattle.sdm_row_laws.specs.ServiceStop.{LawOfServiceRows, LawOfServiceStop};
ghost use Rattle.sdm_row_laws.specs.ShownTriggers.{LawOfShownTriggers};
ghost use Rattle.sdm_row_laws.specs.Tightness.{LawOfExactEoa, LawOfExactSvl, LawOfExactTarget};
ghost use Rattle.sdm_row_laws.specs.Tightness.{LawOfRefutation, LawOfTightEoa, LawOfTightSvl};

/// The supervisor is the machine with the computed limits, and the emergency commands of the other two are those of the
/// headline.
pub fn law_of_row_machine()
    ensures { LawOfRowMachine }
{}

/// ALL COMMANDS: over each reading all commands, the status and the state of the three machines stay in order.
pub fn law_of_all_commands()
    ensures { LawOfAllCommands }
{}

/// So the emergency commands alone stay in order, as the headline says.
pub fn law_of_emergency_order()
    ensures { LawOfEmergencyOrder }
{}

/// All commands stay in order at each row of every journey.
#[tactic(auto, using(crate::proofs::AllOrder::all_journeys))]
pub fn law_of_all_journeys<Record>()
    ensures { LawOfAllJourneys Record }
{}

/// THE EOA: from a reading at or before the SBI of the EOA the service brake stops the train at or before the EOA.
pub fn law_of_service_stop()
    ensures { LawOfServiceStop }
{}

/// From a reading that is clear of a place with an allowance the service brake stops the train at or before it.
#[tactic(auto, using(crate::proofs::Service::clear_stops))]
pub fn law_of_clear_stops()
    ensures { LawOfClearStops }
{}

/// So it does from each row of a moving train under a stop that commands no brake, outside release speed monitoring.
pub fn law_of_service_rows()
    ensures { LawOfServiceRows }
{}

/// So it does from each such row of every journey.
#[tactic(auto, using(crate::proofs::OpenTurns::service_journeys))]
pub fn law_of_service_journeys<Record>()
    ensures { LawOfServiceJourneys Record }
{}

/// The exact EBI of an SvL is the limit of where the emergency brake stops the train by it: at or before it every motion
/// stops, past it some motion doesn't.
#[tactic(auto, using(crate::proofs::ExactLimits::exact_svl))]
pub fn law_of_exact_svl()
    ensures { LawOfExactSvl }
{}

/// The computed EBI of an SvL is at most a millimetre too early.
#[tactic(auto, using(crate::proofs::ExactLimits::tight_svl))]
pub fn law_of_tight_svl()
    ensures { LawOfTightSvl }
{}

/// The exact SBI of an EOA is the limit of where the service brake stops the train by it.
#[tactic(auto, using(crate::proofs::ExactLimits::exact_eoa))]
pub fn law_of_exact_eoa()
    ensures { LawOfExactEoa }
{}

/// The computed SBI of an EOA is at most a millimetre too early.
#[tactic(auto, using(crate::proofs::ExactLimits::tight_eoa))]
pub fn law_of_tight_eoa()
    ensures { LawOfTightEoa }
{}

/// The exact EBI of a speed target is the limit of where a fast train is slowed to its foot speed by it.
#[tactic(auto, using(crate::proofs::ExactLimits::exact_target))]
pub fn law_of_exact_target()
    ensures { LawOfExactTarget }
{}

/// The exact latest trip at a speed is the limit of where the emergency brake stops a tripped train by the SvL.
#[tactic(auto, using(crate::proofs::ReleaseLimits::exact_trip))]
pub fn law_of_exact_trip()
    ensures { LawOfExactTrip }
{}

/// At one km/h more than the calculated release speed some train that is tripped at most a millimetre past the place
/// passes the SvL.
#[tactic(auto, using(crate::proofs::ReleaseLimits::tight_release))]
pub fn law_of_tight_release()
    ensures { LawOfTightRelease }
{}

/// The exact start of release speed monitoring is the limit of where both brakes stop a train at the release speed in
/// time.
#[tactic(auto, using(crate::proofs::ReleaseLimits::exact_start))]
pub fn law_of_exact_start()
    ensures { LawOfExactStart }
{}

/// Release speed monitoring begins where both brakes would still stop such a train in time, or less than a millimetre
/// before they wouldn't.
#[tactic(auto, using(crate::proofs::ReleaseLimits::tight_start))]
pub fn law_of_tight_start()
    ensures { LawOfTightStart }
{}

/// Where some motion passes a place, not every one stops by it; and where one is faster there, not every one slows.
pub fn law_of_refutation()
    ensures { LawOfRefutation }
{}

/// From each covered row of every journey without an emergency command every motion meets each fall that it may still
/// have ahead.
#[tactic(auto, using(crate::proofs::OpenTurns::fall_journeys))]
pub fn law_of_fall_journeys<Record>()
    ensures { LawOfFallJourneys Record }
{}

/// COVERED AND BRAKING: from each covered row, also one with an emergency command, every motion has at or past each fall
/// that the max safe front end has reached at most the greater one of its foot speed and V_est, and the gain.
#[tactic(auto, using(crate::proofs::CoveredFalls::covered_falls))]
pub fn law_of_covered_falls()
    ensures { LawOfCoveredFalls }
{}

/// Without an emergency command that is what such a row promises of its falls.
#[tactic(auto, using(crate::proofs::CoveredFalls::free_falls))]
pub fn law_of_free_falls()
    ensures { LawOfFreeFalls }
{}

/// So does each covered row of every journey.
#[tactic(auto, using(crate::proofs::OpenTurns::covered_fall_journeys))]
pub fn law_of_covered_fall_journeys<Record>()
    ensures { LawOfCoveredFallJourneys Record }
{}

/// The computed and the printed limits of each reading of every journey are near the exact ones.
#[tactic(auto, using(crate::proofs::OpenTurns::limit_journeys))]
pub fn law_of_limit_journeys<Record>()
    ensures { LawOfLimitJourneys Record }
{}

/// WHAT IS SHOWN TRIGGERS: at a reading of a whole speed in km/h the limits that are passed at that speed, by which a
/// driver is shown speeds, are those that trigger.
pub fn law_of_shown_triggers()
    ensures { LawOfShownTriggers }
{}

/// So it is at each reading of every journey.
#[tactic(auto, using(crate::proofs::OpenTurns::shown_journeys))]
pub fn law_of_shown_journeys<Record>()
    ensures { LawOfShownJourneys Record }
{}

/// Each reading of a journey from an open state is taken in one, so that the laws of readings hold of each.
#[tactic(auto, using(crate::proofs::OpenTurns::open_turns))]
pub fn law_of_open_turns<Record>()
    ensures { LawOfOpenTurns Record }
{}

/// What a command says of its rows holds of every journey from an open state in which nothing is held.
pub fn law_of_promised_turns<Record>()
    ensures { LawOfPromisedTurns Record }
{}
