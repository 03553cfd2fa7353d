//! Laws over lists of calls: proofs about definitions, to which `call_lists::make` ties the calls. Each function makes no
//! call and only states its law.

ghost use Rattle.sdm_c.specs.CallLists.{LawOfCalls};
ghost use Rattle.sdm_c.specs.CallRides.{LawOfCallOrders, LawOfCallPlaces, LawOfCallRides};
ghost use Rattle.sdm_c.specs.CallRows.{LawOfCallRows};

/// EVERY LIST OF CALLS answers what the fold over their definitions says, each from what the one before it left.
#[tactic(auto, using(crate::proofs::CallFolds::folds))]
pub fn law_of_calls()
    ensures { LawOfCalls }
{}

/// THE ROWS OF C: those of a list of calls from an opening on are those of the journey of their records, and what `run`
/// says of its rows holds of them, up to a change of data.
pub fn law_of_call_rows()
    ensures { LawOfCallRows }
{}

/// Over every list of calls, changes of data, missing readings and ticks the supervisor in C goes on as that of a ride,
/// and the computer does where its builder orders the brake as the rows ask.
#[tactic(auto, using(crate::proofs::CallSteps::call_orders))]
pub fn law_of_call_orders()
    ensures { LawOfCallOrders }
{}

/// THE RIDE OF C: what the last covered reading promised is true of the train at every moment, where the train does in
/// time what the emergency brake at the interface makes it do.
#[tactic(auto, using(crate::proofs::CallSteps::call_rides))]
pub fn law_of_call_rides()
    ensures { LawOfCallRides }
{}

/// FROM CALLS TO THE PLACE: where besides each authority in force is a stop without a release speed that ends by a place,
/// the train never passes that place from the first covered reading on.
#[tactic(auto, using(crate::proofs::CallSteps::call_places))]
pub fn law_of_call_places()
    ensures { LawOfCallPlaces }
{}
