//! The laws of rides under the service brake: proofs about definitions alone. Each function makes no call and only
//! states its law.

ghost use Rattle.sdm_service_ride.specs.CutOffs.{LawOfCutOffs};
ghost use Rattle.sdm_service_ride.specs.ServiceOrders.{LawOfServiceOrders};
ghost use Rattle.sdm_service_ride.specs.ServiceRideLaws.{LawOfAllowedRides, LawOfServiceRides};
ghost use Rattle.sdm_service_ride.specs.ServiceRideLaws.{LawOfTimedServiceRides};

/// THE RIDE OF THE SERVICE BRAKE: where the brake is ordered after each row that commands one and T_bs holds the delays,
/// a train whose estimate is true is at every moment at or before the EOA of the last reading that promised it, unless
/// it has gained speed since.
#[tactic(auto, using(crate::proofs::ServiceDelays::service_rides))]
pub fn law_of_service_rides()
    ensures { LawOfServiceRides }
{}

/// The same where the train brakes from T_bs after such a reading on until the next one, whatever makes it brake.
#[tactic(auto, using(crate::proofs::ServicePromises::timed_service_rides))]
pub fn law_of_timed_service_rides()
    ensures { LawOfTimedServiceRides }
{}

/// With an allowance for the front end, the speed and the gain of speed the train is at every moment at or before each
/// place that the last such reading was clear of.
#[tactic(auto, using(crate::proofs::ServiceDelays::allowed_rides))]
pub fn law_of_allowed_rides()
    ensures { LawOfAllowedRides }
{}

/// EVERY DRIVER: once the cut-off works, a promise of the EOA stands whatever the driver does, as long as each row
/// commands a brake, or promises the EOA and cuts the traction off.
pub fn law_of_cut_offs()
    ensures { LawOfCutOffs }
{}

/// A computer that does what its builder owes the ride orders the service brake wherever the ride counts an order, over
/// every list of happenings.
#[tactic(auto, using(crate::proofs::ServiceComputers::service_orders))]
pub fn law_of_service_orders()
    ensures { LawOfServiceOrders }
{}
