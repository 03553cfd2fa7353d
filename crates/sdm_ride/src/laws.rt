//! The laws of rides: proofs about definitions alone. Each function makes no call and only states its law.

ghost use Rattle.sdm_ride.specs.ComputerRides.{LawOfComputerPlaces, LawOfComputerRides};
ghost use Rattle.sdm_ride.specs.MotionRides.{LawOfMotionRides};
ghost use Rattle.sdm_ride.specs.Orders.{LawOfOrders};
ghost use Rattle.sdm_ride.specs.RideLaws.{LawOfClocks, LawOfPlaces, LawOfRiddenRows, LawOfRides, LawOfSvlOrders};
ghost use Rattle.sdm_ride.specs.RideLaws.{LawOfTimedRides};

/// THE RIDE: however the train is driven, where the emergency brake is ordered after each reading that gives no promise
/// and the times that were handed in hold the delays, the promise that stands is true of the train at every moment.
#[tactic(auto, using(crate::proofs::Orders::rides))]
pub fn law_of_rides()
    ensures { LawOfRides }
{}

/// The same where the train brakes from T_traction + T_berem after a reading that gave a promise on, until the next
/// one, whatever makes it brake.
#[tactic(auto, using(crate::proofs::Promises::timed_rides))]
pub fn law_of_timed_rides()
    ensures { LawOfTimedRides }
{}

/// Each ride by orders that work in time is one by the clock, so what the train must do by the clock is done where it does
/// in time what is ordered.
#[tactic(auto, using(crate::proofs::Orders::clocks))]
pub fn law_of_clocks()
    ensures { LawOfClocks }
{}

/// What the emergency brake is ordered for on a ride by the SvL, of a train that moves: the supervisor's command alone.
#[tactic(auto, using(crate::proofs::Promises::svl_orders))]
pub fn law_of_svl_orders()
    ensures { LawOfSvlOrders }
{}

/// Each motion that a reading's promise speaks of ends where a ride by the clock does, so rides are no less than the
/// motions.
pub fn law_of_motion_rides()
    ensures { LawOfMotionRides }
{}

/// NEVER PAST: where every authority is a stop without a release speed that ends by a place, the train never passes
/// that place from the first promise on.
#[tactic(auto, using(crate::proofs::Ends::places))]
pub fn law_of_places()
    ensures { LawOfPlaces }
{}

/// The rows of a ride are those of the journey of its records.
pub fn law_of_ridden_rows<Record>()
    ensures { LawOfRiddenRows Record }
{}

/// A computer that does what its builder owes the ride orders the brake wherever the ride counts an order, over every
/// list of happenings.
#[tactic(auto, using(crate::proofs::Computers::orders))]
pub fn law_of_orders()
    ensures { LawOfOrders }
{}

/// THE RIDE BESIDE A COMPUTER: where the train does what the order at the interface of such a computer asks, the promise
/// that stands is true of it at every moment.
#[tactic(auto, using(crate::proofs::ComputerRides::computer_rides))]
pub fn law_of_computer_rides()
    ensures { LawOfComputerRides }
{}

/// NEVER PAST, beside such a computer: where each of its authorities is a stop without a release speed that ends by a
/// place, the train never passes that place from the first promise on.
#[tactic(auto, using(crate::proofs::ComputerRides::computer_places))]
pub fn law_of_computer_places()
    ensures { LawOfComputerPlaces }
{}
