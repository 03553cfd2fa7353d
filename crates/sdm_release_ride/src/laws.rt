//! The laws of rides in release speed monitoring: proofs about definitions alone. Each function makes no call and only
//! states its law.

ghost use Rattle.sdm_release_ride.specs.ReleaseRideLaws.{LawOfCalculatedStops, LawOfEarlierTrips, LawOfReleaseOrders};
ghost use Rattle.sdm_release_ride.specs.ReleaseRideLaws.{LawOfGuardedPlaces, LawOfReleasePlaces, LawOfSameTrains};
ghost use Rattle.sdm_release_ride.specs.ReleaseRideLaws.{LawOfReleaseReadings, LawOfReleaseRides, LawOfTrips};

/// THE TRIP: a true reading whose min safe front end is at most W behind its max safe one commands the emergency brake
/// wherever the true front end is more than W past the EOA.
#[tactic(auto, using(crate::proofs::Trips::trips))]
pub fn law_of_trips()
    ensures { LawOfTrips }
{}

/// The earlier the trip place, the greater the calculated release speed.
#[tactic(auto, using(crate::proofs::TripSpeeds::earlier_trips))]
pub fn law_of_earlier_trips()
    ensures { LawOfEarlierTrips }
{}

/// After the record of a stop with a trip place its release speed has that trip place.
#[tactic(auto, using(crate::proofs::TripSpeeds::calculated_stops))]
pub fn law_of_calculated_stops()
    ensures { LawOfCalculatedStops }
{}

/// From every reading in release speed monitoring that promises the SvL each motion stops at or before it.
#[tactic(auto, using(crate::proofs::Untripped::release_readings))]
pub fn law_of_release_readings()
    ensures { LawOfReleaseReadings }
{}

/// THE RIDE with a release speed: what the last reading promised that was covered, or was in release speed monitoring
/// and kept the bounds, is true of the train at every moment.
#[tactic(auto, using(crate::proofs::ReleaseRides::release_rides))]
pub fn law_of_release_rides()
    ensures { LawOfReleaseRides }
{}

/// NEVER PAST, in release speed monitoring too: where every authority is a stop by a place, and each release speed has
/// a trip place, the train never passes that place from the first promise on.
#[tactic(auto, using(crate::proofs::ReleaseEnds::release_places))]
pub fn law_of_release_places()
    ensures { LawOfReleasePlaces }
{}

/// GUARDED: where the brake is ordered also after each reading that gives no promise, the same of every stop by the place,
/// whatever its release speed.
#[tactic(auto, using(crate::proofs::ReleaseEnds::guarded_places))]
pub fn law_of_guarded_places()
    ensures { LawOfGuardedPlaces }
{}

/// Judged by the release speed a ride is the same as by the rows, but for what is promised.
#[tactic(auto, using(crate::proofs::SameTrains::same_trains))]
pub fn law_of_same_trains()
    ensures { LawOfSameTrains }
{}

/// A computer that does what its builder owes a ride by the rows does so for a ride by the release speed.
#[tactic(auto, using(crate::proofs::ReleaseRides::release_orders))]
pub fn law_of_release_orders()
    ensures { LawOfReleaseOrders }
{}
