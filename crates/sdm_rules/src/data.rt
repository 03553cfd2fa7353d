//! The data of a journey as they are handed in, before any range is tested: train, national values and track.

/// The most speed bands that a train may have. (own)
pub const MOST_BANDS: usize = 10;

/// A speed band of the train: it begins at the upper speed of the band before it, the first at 0.
/// (SUBSET-026-3 3.13.2.2; number of bands own)
#[derive(Clone, Copy, Debug, PartialEq, Eq)]
pub struct Band {
    /// Upper speed in km/h; none for the last band, which reaches to every higher speed.
    pub upper: Option<i64>,
    /// Emergency brake deceleration in cm/s².
    pub emergency: i64,
    /// Service brake deceleration in cm/s².
    pub service: i64,
    /// Normal service brake deceleration in cm/s².
    pub normal: i64,
    /// Kdry_rst for the confidence level in force, in thousandths.
    pub kdry: i64,
    /// Kwet_rst in thousandths.
    pub kwet: i64,
    /// Kn+ in cm/s², for guidance uphill and on the level.
    pub kn_up: i64,
    /// Kn- in cm/s², for guidance downhill.
    pub kn_down: i64,
    /// Emergency brake deceleration in cm/s² where the special brake is not used, 1 to `emergency`; none where that
    /// takes nothing away.
    pub emergency_reduced: Option<i64>,
}

/// Train data. (SUBSET-026-3 3.13.2.2)
#[derive(Clone, Copy, Debug, PartialEq, Eq)]
pub struct TrainFields {
    /// Train length in cm.
    pub length: i64,
    /// Maximum train speed in km/h.
    pub max_speed: i64,
    /// Nominal rotating mass in percent, where it is known.
    pub rotating_mass: Option<i64>,
    /// Time of the traction cut-off in ds.
    pub traction_cutoff_time: i64,
    /// Whether the onboard equipment can cut the traction off.
    pub traction_cutoff_interface: bool,
    /// T_be in ds: from the last covered reading until the emergency brake works in full; no equivalent time.
    /// (SUBSET-026-3 3.13.9.3.2)
    pub emergency_time: i64,
    /// Build-up time of the service brake in ds. (SUBSET-026-3 3.13.9.3.3)
    pub service_time: i64,
    /// Whether the onboard equipment can command the service brake.
    pub service_brake: bool,
    /// The speed bands; those past the count are no part of the data.
    pub bands: [Band; MOST_BANDS],
    /// How many bands were given, also where these are more than the array holds.
    pub band_count: u32,
}

/// National values. (SUBSET-026-3 3.13.2.3, A.3.2)
#[derive(Clone, Copy, Debug, PartialEq, Eq)]
pub struct NationalFields {
    /// M_NVAVADH in twentieths.
    pub avadh: i64,
    /// A_NVMAXREDADH for this train, in cm/s².
    pub adhesion_max: i64,
    /// Q_NVGUIPERM.
    pub guidance: bool,
    /// Q_NVSBTSMPERM; here for ceiling and target speed monitoring together.
    pub service_in_target: bool,
    /// Q_NVEMRRLS.
    pub early_release: bool,
    /// Q_NVINHSMICPERM.
    pub inhibit_under_reading: bool,
}

/// The gradient from a start on, to the next entry's start. (SUBSET-026-3 3.13.4)
#[derive(Clone, Copy, Debug, PartialEq, Eq)]
pub struct Gradient {
    /// Start in cm.
    pub start: i64,
    /// Gradient in tenths of a per mille, uphill positive.
    pub grad: i64,
}

/// An entry of the static speed profile, to the next entry's start. (SUBSET-026-3 3.11.3)
#[derive(Clone, Copy, Debug, PartialEq, Eq)]
pub struct SpeedStep {
    /// Start in cm.
    pub start: i64,
    /// Speed in km/h.
    pub speed: i64,
    /// Whether its end counts for the rear end of the train.
    pub delayed: bool,
}

/// An area of reduced adhesion, or one in which the special brake is not used. (SUBSET-026-3 3.12; own form)
#[derive(Clone, Copy, Debug, PartialEq, Eq)]
pub struct Area {
    /// Start in cm.
    pub start: i64,
    /// End in cm.
    pub end: i64,
}

/// Whose deceleration a slope is: of the emergency brake (A_safe), of the service brake (A_expected) or of the normal
/// service brake (A_normal_service). (SUBSET-026-3 3.13.6)
#[derive(Clone, Copy, Debug, PartialEq, Eq)]
pub enum SlopeKind {
    Safe,
    Expected,
    Normal,
}

/// The times of reaction in ds: T_traction, T_berem, T_bs and T_indication. (SUBSET-026-3 3.13.9.3)
#[derive(Clone, Copy, Debug, PartialEq, Eq)]
pub struct Times {
    pub traction: u32,
    pub berem: u32,
    pub bs: u32,
    pub indication: u32,
}
