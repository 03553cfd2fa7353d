//! The base of made data parts, as text: tests name what they change of it.

/// `BASE_TRAIN` with `BASE_NATIONAL` on a level track of 2 km, with an EOA and SvL at 1000 m; what may be absent is.
pub const BASE_PART: &str = r#"version = 1

[train]
length = 10000
max_speed = 160
rotating_mass = 0
traction_cutoff_time = 0
traction_cutoff_interface = false
emergency_time = 0
service_time = 0
service_brake = true

[[train.band]]
emergency = 100
service = 100
normal = 100
kdry = 1000
kwet = 1000
kn_up = 0
kn_down = 0

[national]
avadh = 20
adhesion_max = 70
guidance = false
service_in_target = true
early_release = false
inhibit_under_reading = false

[track]
length = 200000

[[track.speed]]
start = 0
speed = 160

[authority]
kind = "end"
eoa = 100000
svl = 100000
"#;

/// A train of 200 m with two speed bands and build-up times on wet rails, on a track that falls by 5 per mille from 2
/// km to 4 km, with an EOA at 5000 m and the SvL 50 m beyond it.
pub const REALISTIC_PART: &str = r#"version = 1

[train]
length = 20000
max_speed = 160
traction_cutoff_time = 20
traction_cutoff_interface = true
emergency_time = 30
service_time = 40
service_brake = true

[[train.band]]
upper = 100
emergency = 120
service = 90
normal = 60
kdry = 850
kwet = 950
kn_up = 0
kn_down = 0

[[train.band]]
emergency = 100
service = 80
normal = 50
kdry = 850
kwet = 950
kn_up = 0
kn_down = 0

[national]
avadh = 0
adhesion_max = 70
guidance = false
service_in_target = true
early_release = false
inhibit_under_reading = false

[track]
length = 600000

[[track.gradient]]
start = 0
grad = 0

[[track.gradient]]
start = 200000
grad = -5

[[track.gradient]]
start = 400000
grad = 0

[[track.speed]]
start = 0
speed = 160

[authority]
kind = "end"
eoa = 500000
svl = 505000
"#;
