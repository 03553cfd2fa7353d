//! What may be asked of readings that haven't come. The train brakes with 1 m/s² at once, and at 500 m the speed falls to
//! 80 km/h, with 7.5 km/h to its EBI: from 25 m/s that is 17.12 m before it.

use crate::tests::plain::{opened, plain_parts, stop};
use crate::tests::supervisor::restriction;
use sdm_num::Reading;
use sdm_supervisor::Supervisor;

/// Min and max safe front end in mm at 25 m/s, whether such a reading would be covered, and whether each one up to it.
const AT_25_M_S: [([i32; 2], bool, bool); 7] = [
    ([482_880, 482_880], true, true),
    ([482_881, 482_881], false, false),
    ([470_000, 482_880], true, true),
    ([470_000, 482_881], false, false),
    // past the fall it is no target of the reading, but of those behind it
    ([510_000, 510_000], true, true),
    ([500_000, 510_000], true, true),
    ([499_999, 510_000], true, false),
];

fn are_covered(supervisor: &Supervisor) -> bool {
    for &([min, max], at, up_to) in &AT_25_M_S {
        let Some(reading) = Reading::new(0, max, min, max, 25_000, 0, 0) else {
            return false;
        };
        if supervisor.would_cover(&reading) != at
            || supervisor.would_cover_up_to(&reading) != up_to
        {
            return false;
        }
    }
    true
}

#[test]
fn a_fall_is_asked_for_until_the_min_safe_front_end_is_past_it(rt: HostRuntime) {
    let told = match opened(rt.alloc(), plain_parts(rt.alloc()), stop(200_000, 200_000)) {
        Some(mut supervisor) => {
            supervisor.restrict(restriction(1, 50_000, 60_000)).is_ok() && are_covered(&supervisor)
        }
        None => false,
    };
    assert!(rt; told);
}
