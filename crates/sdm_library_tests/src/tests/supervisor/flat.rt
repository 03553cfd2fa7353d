//! The supervisor of one curve, at a time that goes back. Its rows and its other refusals are runs of `flat`, in
//! worked/.

ghost use Rattle.sdm_supervisor.specs.FlatLines.{IsFlatLine, line_at};

use sdm_num::{Place, Speed};
use sdm_supervisor::{CycleFault, Flat, FlatRow};

/// Whether the supervisor of one curve gives this row.
fn gives(flat: &mut Flat, time: u32, front: Place, speed: Speed, row: FlatRow) -> bool
    requires { IsFlatLine (line_at time front speed) }
{
    flat.cycle(time, front, speed) == Ok(row)
}

/// Past the EBI, at a time before, and then within it.
fn refuses_time_back(flat: &mut Flat) -> bool {
    let past = FlatRow {
        time: 10,
        ebi: 800_000,
        covered: false,
        eb: true,
    };
    let held = FlatRow {
        time: 10,
        ebi: 887_500,
        covered: true,
        eb: true,
    };
    let refused = CycleFault::TimeBack { last: 10, time: 9 };
    gives(
        flat,
        10,
        Place::of_mm(800_010),
        Speed::of_mm_s(20_000),
        past,
    ) && flat.cycle(9, Place::of_mm(0), Speed::new(0)) == Err(refused)
        && gives(
            flat,
            10,
            Place::of_mm(810_000),
            Speed::of_mm_s(15_000),
            held,
        )
}

#[test]
fn a_time_that_goes_back_changes_nothing(rt: HostRuntime) {
    let refused = match Flat::begin(rt.alloc(), 100, 100_000) {
        Ok(mut flat) => refuses_time_back(&mut flat),
        Err(_) => false,
    };
    assert!(rt; refused);
}
