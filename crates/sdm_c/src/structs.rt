//! The structs of `sdm.h`, field by field in its order. Their sizes on x86-64 are tested here; the header tests the
//! places of their fields.

/// A reading of the odometer: `struct sdm_reading`.
#[repr(C)]
#[derive(Clone, Copy)]
pub struct ReadingC {
    /// Time in ds.
    pub time_ds: u32,
    /// The estimated front end in mm.
    pub est_mm: i32,
    /// The min safe front end in mm.
    pub min_mm: i32,
    /// The max safe front end in mm.
    pub max_mm: i32,
    /// V_est in mm/s.
    pub speed_mm_s: u32,
    /// A_est in cm/s².
    pub accel_cm_s2: i32,
    /// The under-reading amount in mm/s.
    pub under_mm_s: u32,
}

/// A place, or none: `struct sdm_place`.
#[repr(C)]
#[derive(Clone, Copy)]
pub struct PlaceC {
    /// The place in mm; 0 where there is none.
    pub mm: i64,
    /// 1 where there is a place, else 0.
    pub is_some: u32,
}

/// What is commanded after a reading: `struct sdm_row`. Flags are 0 or 1.
#[repr(C)]
#[derive(Clone, Copy)]
pub struct RowC {
    /// Time of the reading in ds.
    pub time_ds: u32,
    /// The type of speed and distance monitoring: `enum sdm_state`.
    pub state: u32,
    /// The supervision status: `enum sdm_supervision`.
    pub status: u32,
    /// The traction cut-off is commanded.
    pub tco: u32,
    /// The service brake is commanded.
    pub sb: u32,
    /// The emergency brake is commanded.
    pub eb: u32,
    /// The stop before the SvL is promised.
    pub covered: u32,
    /// The ceiling in km/h.
    pub ceiling_kmh: u32,
    /// The EBI.
    pub ebi: PlaceC,
    /// The SBI.
    pub sbi: PlaceC,
    /// The warning limit.
    pub warning: PlaceC,
    /// The permitted limit.
    pub permitted: PlaceC,
    /// The indication limit.
    pub indication: PlaceC,
}

/// A temporary speed restriction: `struct sdm_restriction`.
#[repr(C)]
#[derive(Clone, Copy)]
pub struct RestrictionC {
    /// By which it is revoked, 0 to 65,535.
    pub id: u32,
    /// Start in cm.
    pub start_cm: u32,
    /// End in cm.
    pub end_cm: u32,
    /// Speed in km/h, 1 to 500.
    pub speed_kmh: u32,
    /// 1 where its end counts for the rear end of the train, else 0.
    pub is_delayed: u32,
}

/// What a train may be beyond its estimate at a reading, and gain after it: `struct sdm_allowance`.
#[repr(C)]
#[derive(Clone, Copy)]
pub struct AllowanceC {
    /// How far it may be past the estimated front end, in mm.
    pub front_mm: u32,
    /// How much faster it may be than V_est, in mm/s.
    pub speed_mm_s: u32,
    /// With which acceleration it may gain speed, in cm/s².
    pub accel_cm_s2: u32,
}

/// What the driver can be shown of a reading: `struct sdm_display`.
#[repr(C)]
#[derive(Clone, Copy)]
pub struct DisplayC {
    /// Time of the reading in ds.
    pub time_ds: u32,
    /// The permitted speed in km/h.
    pub permitted_kmh: u32,
    /// The SBI speed in km/h.
    pub sbi_kmh: u32,
    /// The EBI speed in km/h.
    pub ebi_kmh: u32,
    /// The release speed of the authority in km/h; 0 where there is none.
    pub release_kmh: u32,
    /// The kind of the target that counts: `enum sdm_target`.
    pub target: u32,
    /// That target's speed in km/h; 0 where there is none.
    pub target_kmh: u32,
    /// From the train to that target in mm; 0 where there is none.
    pub distance_mm: i64,
}

/// Why a trigger of a reading holds, or that it doesn't: `struct sdm_cause`.
#[repr(C)]
#[derive(Clone, Copy)]
pub struct CauseC {
    /// By which rule: `enum sdm_rule`.
    pub rule: u32,
    /// The kind of the target that is passed: `enum sdm_target`.
    pub target: u32,
    /// That target's speed in km/h; 0 where there is none.
    pub target_kmh: u32,
    /// That target's place in mm; 0 where there is none.
    pub target_mm: i64,
    /// The limit by which it is passed, in mm; 0 where there is none.
    pub limit_mm: i64,
}

/// Why a reading triggers, and how each command stands after it: `struct sdm_causes`.
#[repr(C)]
#[derive(Clone, Copy)]
pub struct CausesC {
    /// Time of the reading in ds.
    pub time_ds: u32,
    /// Traction cut-off: `enum sdm_standing`.
    pub tco: u32,
    /// Service brake: `enum sdm_standing`.
    pub sb: u32,
    /// Emergency brake: `enum sdm_standing`.
    pub eb: u32,
    /// Why the train is above the permitted speed.
    pub over: CauseC,
    /// Why a warning limit is passed.
    pub warn: CauseC,
    /// Why an SBI is passed.
    pub serv: CauseC,
    /// Why there is an emergency.
    pub emer: CauseC,
}

/// The line of data that are refused: `struct sdm_line`.
#[repr(C)]
#[derive(Clone, Copy)]
pub struct LineC {
    /// How many of the bytes are the line.
    pub count: u32,
    /// The line, and after it bytes of no meaning.
    pub bytes: [u8; LINE_BYTES],
}

/// The most bytes of a line.
pub const LINE_BYTES: usize = 192;

const _: () = prove!(size_of::<ReadingC>() == 28);

const _: () = prove!(size_of::<PlaceC>() == 16);

const _: () = prove!(size_of::<RowC>() == 112);

const _: () = prove!(size_of::<RestrictionC>() == 20);

const _: () = prove!(size_of::<AllowanceC>() == 12);

const _: () = prove!(size_of::<DisplayC>() == 40);

const _: () = prove!(size_of::<CauseC>() == 32);

const _: () = prove!(size_of::<CausesC>() == 144);

const _: () = prove!(size_of::<LineC>() == 196);
