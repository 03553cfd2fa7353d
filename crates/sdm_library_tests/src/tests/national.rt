//! The clauses say of all values which are accepted and what is kept. Here the ranges stand as rows worked by hand, so
//! that the definitions are tested too.

use sdm_formats::BASE_NATIONAL;
use sdm_national::{National, NationalFault, NationalFields};

fn key_refused(avadh: i64, adhesion_max: i64) -> Option<u8> {
    match National::new(NationalFields {
        avadh,
        adhesion_max,
        ..BASE_NATIONAL
    }) {
        Ok(_) => None,
        Err(NationalFault::Value { key }) => Some(key),
    }
}

#[test]
fn each_reader_answers_its_own_field(rt: HostRuntime) {
    for (guidance, early_release, inhibit_under_reading) in [
        (true, false, false),
        (false, true, false),
        (false, false, true),
    ] {
        let Ok(national) = National::new(NationalFields {
            guidance,
            early_release,
            inhibit_under_reading,
            ..BASE_NATIONAL
        }) else {
            assert!(rt; false);
            return;
        };
        assert!(rt; national.avadh() == 20);
        assert!(rt; national.adhesion_max() == 70);
        assert!(rt; national.guidance() == guidance);
        assert!(rt; national.service_in_target());
        assert!(rt; national.early_release() == early_release);
        assert!(rt; national.inhibit_under_reading() == inhibit_under_reading);
    }
}

#[test]
fn a_number_is_accepted_exactly_within_its_range(rt: HostRuntime) {
    assert!(rt; key_refused(0, 1).is_none());
    assert!(rt; key_refused(20, 400).is_none());
    assert!(rt; key_refused(-1, 1) == Some(1));
    assert!(rt; key_refused(21, 1) == Some(1));
    assert!(rt; key_refused(0, 0) == Some(2));
    assert!(rt; key_refused(0, 401) == Some(2));
    assert!(rt; key_refused(21, 0) == Some(1));
}
