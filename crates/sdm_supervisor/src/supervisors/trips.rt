//! Whether the release speed of an authority has a trip place.

ghost use Rattle.std.specs.Prelude.{◌≡◌, ◌↔◌, IsTrue};
ghost use Rattle.sdm_laws.specs.TripPlaces.{IsStopWithTrip, has_trip_place};
ghost use Rattle.sdm_supervisor.specs.Supervised.{bounds_of};

use super::Supervisor;
use sdm_num::Speed;
use sdm_targets::Authority;

impl Supervisor {
    /// Whether the authority is a stop whose release speed has a trip place for readings that keep two bounds until the
    /// train is tripped: W, in cm, from the min to the max safe front end, and U, in mm/s, by which the train may get
    /// faster than V_est until its emergency brake works. So it is exactly where the place W past the EOA isn't past the
    /// SvL, the calculated release speed for a trip there is at least U above the release speed, and T_traction is at
    /// most T_be. A release speed of 0, which is none, is asked in the same way. No memory is taken. (own)
    pub fn has_trip_place(&self, width_cm: u32, excess_mm_s: u32) -> bool
        ensures value { result
            ≡ has_trip_place (bounds_of width_cm excess_mm_s) self.now.train_and_track self.now.authority }
        ensures trip { IsTrue result
            ↔ IsStopWithTrip (bounds_of width_cm excess_mm_s) self.now.train_and_track self.now.authority }
    {
        let Authority::Stop { eoa, svl, release } = self.authority else {
            return false;
        };
        let times = self.braking.times();
        if times.traction > self.braking.t_be() || svl < eoa || svl - eoa < width_cm {
            return false;
        }
        let calculated = Speed::of_kmh(self.release_for(svl, eoa + width_cm));
        let needed = u64::from(Speed::of_kmh(release).notches()) + 54 * u64::from(excess_mm_s);
        needed <= u64::from(calculated.notches())
    }
}
