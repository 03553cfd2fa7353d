//! Numbers of base data set by the names of their keys, as the tables of tests tell them.

ghost use Rattle.std.specs.Prelude.{◌≡◌, false};

use sdm_rules::{Band, NationalFields, TrainFields, keys};

/// Data whose keys can be set by name.
pub trait SetByKey {
    /// Sets what a key of this name says; 1 stands for true. False where there is no such key.
    fn set(&mut self, name: &str, number: i64) -> bool
        ensures { result ≡ false → self.new ≡ self.old };
}

/// The number of a key by its name, if it is one of these.
fn number_of(names: &[&str], name: &str) -> Option<u8> {
    let index = names.iter().position(|other| name == *other)?;
    u8::try_from(index).ok()?.checked_add(1)
}

impl SetByKey for Band {
    fn set(&mut self, name: &str, number: i64) -> bool {
        match number_of(&keys::BAND, name) {
            Some(keys::BAND_UPPER) => self.upper = Some(number),
            Some(keys::BAND_EMERGENCY) => self.emergency = number,
            Some(keys::BAND_SERVICE) => self.service = number,
            Some(keys::BAND_NORMAL) => self.normal = number,
            Some(keys::BAND_KDRY) => self.kdry = number,
            Some(keys::BAND_KWET) => self.kwet = number,
            Some(keys::BAND_KN_UP) => self.kn_up = number,
            Some(keys::BAND_KN_DOWN) => self.kn_down = number,
            Some(keys::BAND_EMERGENCY_REDUCED) => self.emergency_reduced = Some(number),
            _ => return false,
        }
        true
    }
}

impl SetByKey for TrainFields {
    /// Of the train, or else of its first band.
    fn set(&mut self, name: &str, number: i64) -> bool {
        match number_of(&keys::TRAIN, name) {
            Some(keys::TRAIN_LENGTH) => self.length = number,
            Some(keys::TRAIN_MAX_SPEED) => self.max_speed = number,
            Some(keys::TRAIN_ROTATING_MASS) => self.rotating_mass = Some(number),
            Some(keys::TRAIN_TRACTION_CUTOFF_TIME) => self.traction_cutoff_time = number,
            Some(keys::TRAIN_TRACTION_CUTOFF_INTERFACE) => {
                self.traction_cutoff_interface = number == 1;
            }
            Some(keys::TRAIN_EMERGENCY_TIME) => self.emergency_time = number,
            Some(keys::TRAIN_SERVICE_TIME) => self.service_time = number,
            Some(keys::TRAIN_SERVICE_BRAKE) => self.service_brake = number == 1,
            _ => return self.bands[0].set(name, number),
        }
        true
    }
}

impl SetByKey for NationalFields {
    fn set(&mut self, name: &str, number: i64) -> bool {
        match number_of(&keys::NATIONAL, name) {
            Some(keys::NATIONAL_AVADH) => self.avadh = number,
            Some(keys::NATIONAL_ADHESION_MAX) => self.adhesion_max = number,
            Some(keys::NATIONAL_GUIDANCE) => self.guidance = number == 1,
            Some(keys::NATIONAL_SERVICE_IN_TARGET) => self.service_in_target = number == 1,
            Some(keys::NATIONAL_EARLY_RELEASE) => self.early_release = number == 1,
            Some(keys::NATIONAL_INHIBIT_UNDER_READING) => {
                self.inhibit_under_reading = number == 1;
            }
            _ => return false,
        }
        true
    }
}
