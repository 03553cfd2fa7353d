//! What the computer owes the ride, over every list of its messages.

ghost use Rattle.sdm_onboard.specs.LateReadings.{LawOfLateReadings};
ghost use Rattle.sdm_onboard.specs.Runs.{LawOfBrakes, LawOfGuardedMessages, LawOfMessagePlaces, LawOfMessageRides};
ghost use Rattle.sdm_onboard.specs.Runs.{LawOfMessages, LawOfServiceMessages};

/// The emergency brake stands at the interface wherever the ride counts an order of it: by the clause of
/// `Onboard::take`, of each message, over all of them.
#[tactic(auto, using(crate::proofs::Runs::runs))]
pub fn law_of_messages()
    ensures { LawOfMessages }
{}

/// So does the service brake wherever a ride under the service brake counts an order of it.
#[tactic(auto, using(crate::proofs::Runs::service_runs))]
pub fn law_of_service_messages()
    ensures { LawOfServiceMessages }
{}

/// THE BRAKES: they stand from the beginning on until a reading is judged, and while something that was refused is
/// missing; and none works against the traction.
#[tactic(auto, using(crate::proofs::Brakes::brakes))]
pub fn law_of_brakes()
    ensures { LawOfBrakes }
{}

/// THE RIDE OF THE COMPUTER: what the last covered reading promised is true of the train at every moment, where the train
/// does in time what the emergency brake at the interface makes it do.
#[tactic(auto, using(crate::proofs::Runs::message_rides))]
pub fn law_of_message_rides()
    ensures { LawOfMessageRides }
{}

/// FROM MESSAGES TO THE PLACE: where besides each authority that the computer has taken is a stop without a release speed
/// that ends by a place, the train never passes that place from the first covered reading on.
#[tactic(auto, using(crate::proofs::Runs::message_places))]
pub fn law_of_message_places()
    ensures { LawOfMessagePlaces }
{}

/// GUARDED: where each authority is any stop that ends by the place, whatever its release speed, the train never passes
/// it, in release speed monitoring too.
#[tactic(auto, using(crate::proofs::Runs::guarded_messages))]
pub fn law_of_guarded_messages()
    ensures { LawOfGuardedMessages }
{}

/// A READING JUDGED LATE is one of the ride at the moment for which it holds: put back there, after all that the supervisor
/// was handed in meanwhile, it is judged by what the supervisor holds, and the train and the supervisor end as they do.
pub fn law_of_late_readings()
    ensures { LawOfLateReadings }
{}
