//! The keys of the data part. For each section there are the names of its keys, and the numbers by which faults tell
//! them: those of the names in their order, from 1. (own)

/// The root of the document.
pub const ROOT: [&str; 5] = ["version", "train", "national", "track", "authority"];

pub const ROOT_VERSION: u8 = 1;

pub const ROOT_TRAIN: u8 = 2;

pub const ROOT_NATIONAL: u8 = 3;

pub const ROOT_TRACK: u8 = 4;

pub const ROOT_AUTHORITY: u8 = 5;

/// The train, but for its bands.
pub const TRAIN: [&str; 9] = [
    "length",
    "max_speed",
    "rotating_mass",
    "traction_cutoff_time",
    "traction_cutoff_interface",
    "emergency_time",
    "service_time",
    "service_brake",
    "band",
];

pub const TRAIN_LENGTH: u8 = 1;

pub const TRAIN_MAX_SPEED: u8 = 2;

pub const TRAIN_ROTATING_MASS: u8 = 3;

pub const TRAIN_TRACTION_CUTOFF_TIME: u8 = 4;

pub const TRAIN_TRACTION_CUTOFF_INTERFACE: u8 = 5;

pub const TRAIN_EMERGENCY_TIME: u8 = 6;

pub const TRAIN_SERVICE_TIME: u8 = 7;

pub const TRAIN_SERVICE_BRAKE: u8 = 8;

pub const TRAIN_BAND: u8 = 9;

/// A speed band.
pub const BAND: [&str; 9] = [
    "upper",
    "emergency",
    "service",
    "normal",
    "kdry",
    "kwet",
    "kn_up",
    "kn_down",
    "emergency_reduced",
];

pub const BAND_UPPER: u8 = 1;

pub const BAND_EMERGENCY: u8 = 2;

pub const BAND_SERVICE: u8 = 3;

pub const BAND_NORMAL: u8 = 4;

pub const BAND_KDRY: u8 = 5;

pub const BAND_KWET: u8 = 6;

pub const BAND_KN_UP: u8 = 7;

pub const BAND_KN_DOWN: u8 = 8;

pub const BAND_EMERGENCY_REDUCED: u8 = 9;

/// The national values.
pub const NATIONAL: [&str; 6] = [
    "avadh",
    "adhesion_max",
    "guidance",
    "service_in_target",
    "early_release",
    "inhibit_under_reading",
];

pub const NATIONAL_AVADH: u8 = 1;

pub const NATIONAL_ADHESION_MAX: u8 = 2;

pub const NATIONAL_GUIDANCE: u8 = 3;

pub const NATIONAL_SERVICE_IN_TARGET: u8 = 4;

pub const NATIONAL_EARLY_RELEASE: u8 = 5;

pub const NATIONAL_INHIBIT_UNDER_READING: u8 = 6;

/// The track, but for the entries of its lists.
pub const TRACK: [&str; 5] = ["length", "gradient", "speed", "adhesion", "no_special"];

pub const TRACK_LENGTH: u8 = 1;

pub const TRACK_GRADIENT: u8 = 2;

pub const TRACK_SPEED: u8 = 3;

pub const TRACK_ADHESION: u8 = 4;

pub const TRACK_NO_SPECIAL: u8 = 5;

/// A gradient.
pub const GRADIENT: [&str; 2] = ["start", "grad"];

pub const GRADIENT_START: u8 = 1;

pub const GRADIENT_GRAD: u8 = 2;

/// An entry of the static speed profile.
pub const SPEED: [&str; 3] = ["start", "speed", "delayed"];

pub const SPEED_START: u8 = 1;

pub const SPEED_SPEED: u8 = 2;

pub const SPEED_DELAYED: u8 = 3;

/// An area.
pub const AREA: [&str; 2] = ["start", "end"];

pub const AREA_START: u8 = 1;

pub const AREA_END: u8 = 2;

/// The authority; which keys it has depends on its kind.
pub const AUTHORITY: [&str; 6] = ["kind", "eoa", "svl", "release", "loa", "speed"];

pub const AUTHORITY_KIND: u8 = 1;

pub const AUTHORITY_EOA: u8 = 2;

pub const AUTHORITY_SVL: u8 = 3;

pub const AUTHORITY_RELEASE: u8 = 4;

pub const AUTHORITY_LOA: u8 = 5;

pub const AUTHORITY_SPEED: u8 = 6;
