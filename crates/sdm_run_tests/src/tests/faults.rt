//! Runs over streams that fail, or that move few bytes at once. The lines of a table have the words, what the base data
//! have otherwise (or `none`, where there are none), what follows them, what the streams do, what out takes, the code,
//! and what the fault stream takes. What the streams do: so many bytes at once; the reads, the calls of out and the
//! writes of the fault line that fail, by their numbers.

/// The rows before a refused record are written, and out is flushed after the last, where there is one.
pub const RUN: &str = "\
    run | - | %%/read,0,799990,799990,799990,20000,0,0/ | 1; -; -; - | 0,T,W,1,0,0,1,160,800000,800000,760000,720000,540000/ | 0 | -
    run | - | %%/read,0,799990,799990,799990,20000,0,0/ | 1000; 2; -; - | - | 2 | sdm: read fault/
    run | - | %%/read,0,799990,799990,799990,20000,0,0/ | 1; 1; -; - | - | 2 | sdm: read fault/
    run | - | %%/read,0,799990,799990,799990,20000,0,0/ | 1; 2; -; - | - | 2 | sdm: read fault/
    run | - | %%/read,0,799990,799990,799990,20000,0,0/ | 1; 500; -; - | - | 2 | sdm: read fault/
    run | - | %%/read,0,799990,799990,799990,20000,0,0/ | 1000; -; 1; - | - | 3 | sdm: write fault/
    run | - | %%/read,0,799990,799990,799990,20000,0,0/go/ | 1000; -; 1; - | - | 3 | sdm: write fault/
    run | - | %%/read,0,799990,799990,799990,20000,0,0/go/ | 1000; -; 2; - | 0,T,W,1,0,0,1,160,800000,800000,760000,720000,540000/ | 3 | sdm: write fault/
    run | - | %%/read,0,799990,799990,799990,20000,0,0/go/ | 1000; -; 3; - | 0,T,W,1,0,0,1,160,800000,800000,760000,720000,540000/ | 7 | sdm: bad event 2: unknown kind/
    run | - | %%/read,0,799990,799990,799990,20000,0,0/ | 3; -; 2; - | 0,T | 3 | sdm: write fault/
    run | - | %%/read,0,800010,800010,800010,20000,0,0/read,10,810000,810000,810000,15000,0,0/read,50,900000,900000,900000,0,0,0/ | 1000; -; 1; - | - | 3 | sdm: write fault/
    run | - | %%/read,0,800010,800010,800010,20000,0,0/read,10,810000,810000,810000,15000,0,0/read,50,900000,900000,900000,0,0,0/ | 1000; -; 2; - | 0,T,X,1,1,1,0,160,800000,800000,760000,720000,540000/ | 3 | sdm: write fault/
    run | - | %%/read,0,800010,800010,800010,20000,0,0/read,10,810000,810000,810000,15000,0,0/read,50,900000,900000,900000,0,0,0/ | 1000; -; 3; - | 0,T,X,1,1,1,0,160,800000,800000,760000,720000,540000/10,T,X,0,0,1,1,160,887500,887500,857500,827500,692500/ | 3 | sdm: write fault/
    run | - | %%/read,0,800010,800010,800010,20000,0,0/read,10,810000,810000,810000,15000,0,0/read,50,900000,900000,900000,0,0,0/ | 1000; -; 4; - | 0,T,X,1,1,1,0,160,800000,800000,760000,720000,540000/10,T,X,0,0,1,1,160,887500,887500,857500,827500,692500/50,C,N,0,0,0,1,160,1000000,1000000,1000000,1000000,1000000/ | 3 | sdm: write fault/
    run | - | %%/read,0,800010,800010,800010,20000,0,0/read,10,810000,810000,810000,15000,0,0/read,50,900000,900000,900000,0,0,0/ | 1000; -; 5; - | 0,T,X,1,1,1,0,160,800000,800000,760000,720000,540000/10,T,X,0,0,1,1,160,887500,887500,857500,827500,692500/50,C,N,0,0,0,1,160,1000000,1000000,1000000,1000000,1000000/ | 0 | -
    run | - | %%/ | 1000; -; 1; - | - | 0 | -
    run | - | %%/go/ | 1000; -; 1; - | - | 7 | sdm: bad event 1: unknown kind/";

pub const FLAT: &str = "\
    flat 100 100000 | none | 0,799990,20000/5,800010,20000/ | 1000; -; -; - | 0,800000,1,0/5,800000,0,1/ | 0 | -
    flat 100 100000 | none | 0,799990,20000/5,800010,20000/ | 1; -; -; - | 0,800000,1,0/5,800000,0,1/ | 0 | -
    flat 100 100000 | none | 0,799990,20000/5,800010,20000/ | 3; -; -; - | 0,800000,1,0/5,800000,0,1/ | 0 | -
    flat 100 100000 | none | 0,799990,20000/5,800010,20000/ | 1000; 1; -; - | - | 2 | sdm: read fault/
    flat 100 100000 | none | 0,799990,20000/5,800010,20000/ | 1000; 2; -; - | - | 2 | sdm: read fault/
    flat 100 100000 | none | 0,799990,20000/5,800010,20000/ | 1; 30; -; - | - | 2 | sdm: read fault/
    flat 100 100000 | none | 0,799990,20000/5,800010,20000/ | 1; 31; -; - | - | 2 | sdm: read fault/
    flat 100 100000 | none | 0,799990,20000/5,800010,20000/ | 1; 32; -; - | 0,800000,1,0/5,800000,0,1/ | 0 | -
    flat 100 100000 | none | 0,799990,20000/5,800010,20000/ | 1000; -; 1; - | - | 3 | sdm: write fault/
    flat 100 100000 | none | 0,799990,20000/5,800010,20000/ | 1000; -; 2; - | 0,800000,1,0/ | 3 | sdm: write fault/
    flat 100 100000 | none | 0,799990,20000/5,800010,20000/ | 1000; -; 3; - | 0,800000,1,0/5,800000,0,1/ | 3 | sdm: write fault/
    flat 100 100000 | none | 0,799990,20000/5,800010,20000/ | 1000; -; 4; - | 0,800000,1,0/5,800000,0,1/ | 0 | -
    flat 100 100000 | none | 0,799990,20000/5,800010,20000/ | 1; -; 5; - | 0,80 | 3 | sdm: write fault/
    flat 100 100000 | none | 0,799990,20000/5,800010,20000/ | 1; -; 3; - | 0, | 3 | sdm: write fault/
    flat 100 100000 | none | 0,799990,20000/5,800010,20000/ | 3; -; 6; - | 0,800000,1,0/ | 3 | sdm: write fault/
    flat 100 100000 | none | 0,799990,20000/5,800010,20000/ | 3; -; 7; - | 0,800000,1,0/5,8 | 3 | sdm: write fault/
    flat 100 100000 | none | 0,799990,20000/5,800010,20000/ | 1000; 1; -; 1 | - | 2 | -
    flat 100 100000 | none | 0,799990,20000/5,800010,20000/ | 1; 1; -; 5 | - | 2 | sdm:
    flat 100 100000 | none | 0,799990,20000/5,800010,20000/ | 1; -; 1; 1 | - | 3 | -
    flat 100 100000 | none | 0,799990,20000/5,800010,20000/ | 1; -; -; 1 | 0,800000,1,0/5,800000,0,1/ | 0 | -";

pub const CERTIFY: &str = "\
    certify 1 | - | %%/read,0,799990,799990,799990,20000,0,0/ | 1000; 1; -; - | - | 2 | sdm: read fault/
    certify 1 | - | %%/read,0,799990,799990,799990,20000,0,0/ | 1000; -; 1; - | - | 3 | sdm: write fault/
    certify 1 | - | %%/read,0,799990,799990,799990,20000,0,0/ | 9; -; 2; - | map,100,1 | 3 | sdm: write fault/
    certify 1 | - | %%/read,0,799990,799990,799990,20000,0,0/ | 1000; -; 4; - | map,100,1,1/seg,0,200000000000/claim,0,431994600000000,1080000,0,0,0,0,540000000000000,2/ | 3 | sdm: write fault/
    certify 1 | - | %%/read,0,799990,799990,799990,20000,0,0/ | 1000; -; 6; - | map,100,1,1/seg,0,200000000000/claim,0,431994600000000,1080000,0,0,0,0,540000000000000,2/mark,432000000000000,583200000000000000000000000/mark,540000000000000,0/ | 3 | sdm: write fault/
    certify 1 | - | %%/read,0,799990,799990,799990,20000,0,0/ | 1000; -; 7; - | map,100,1,1/seg,0,200000000000/claim,0,431994600000000,1080000,0,0,0,0,540000000000000,2/mark,432000000000000,583200000000000000000000000/mark,540000000000000,0/ | 0 | -";

pub const CHECK: &str = "\
    check | none | map,100,1,1/seg,0,200000000000/claim,7,0,0,0,0,0,0,0,1/mark,0,0/ | 1000; 1; -; - | - | 2 | sdm: read fault/
    check | none | map,100,1,1/seg,0,200000000000/claim,7,0,0,0,0,0,0,0,1/mark,0,0/ | 1000; -; 1; - | - | 3 | sdm: write fault/
    check | none | map,100,1,1/seg,0,200000000000/claim,7,0,0,0,0,0,0,0,1/mark,0,0/ | 2; -; 3; - | 7,ye | 3 | sdm: write fault/
    check | none | map,100,1,1/seg,0,200000000000/claim,7,0,0,0,0,0,0,0,1/mark,0,0/ | 1000; -; -; - | 7,yes/ | 0 | -";

/// Where nothing is written, out isn't called.
pub const DRIVE: &str = "\
    drive 7 3 | emergency_time = 0 > emergency_time = 20 | - | 1000; 1; -; - | - | 2 | sdm: read fault/
    drive 7 3 | emergency_time = 0 > emergency_time = 20 | - | 100; 2; -; - | - | 2 | sdm: read fault/
    drive 7 3 | emergency_time = 0 > emergency_time = 20 | - | 1000; -; 1; - | - | 3 | sdm: write fault/
    drive 7 3 | emergency_time = 0 > emergency_time = 20 | - | 9; -; 2; - | cycles 3/ | 3 | sdm: write fault/
    drive 7 3 | emergency_time = 0 > emergency_time = 20 | - | 1000; -; 2; - | cycles 3/emergency 0/stops 0/front 184/least 999816/ | 3 | sdm: write fault/
    drive 7 3 | emergency_time = 0 > emergency_time = 20 | - | 1000; -; 3; - | cycles 3/emergency 0/stops 0/front 184/least 999816/ | 0 | -
    drive 7 3 | - | - | 1000; -; 1; - | - | 9 | sdm: not drivable: emergency time/";

/// A trial reads nothing.
pub const TRIAL: &str = "\
    trial 7 3 | none | - | 1000; 1 2 3; -; - | rows 3/covered 3/emergency 0/service 0/ebi 14668789/ | 0 | -
    trial 7 3 | none | - | 1000; -; 1; - | - | 3 | sdm: write fault/
    trial 7 3 | none | - | 1000; -; 2; - | rows 3/covered 3/emergency 0/service 0/ebi 14668789/ | 3 | sdm: write fault/
    trial 7 3 | none | - | 1000; -; 3; - | rows 3/covered 3/emergency 0/service 0/ebi 14668789/ | 0 | -";

/// Of the text of the base data.
pub const UPGRADE: &str = r#"upgrade | - | - | 1000; 1; -; - | - | 2 | sdm: read fault/
upgrade | - | - | 12; -; 1; - | - | 3 | sdm: write fault/
upgrade | - | - | 12; -; 2; - | version = 2/ | 3 | sdm: write fault/
upgrade | - | - | 12; -; 3; - | version = 2//[authority] | 3 | sdm: write fault/
upgrade | - | - | 1000; -; 2; - | version = 2//[authority]/eoa = 100000/kind = "end"/release = 0/svl = 100000//[national]/adhesion_max = 70/avadh = 20/early_release = false/guidance = false/inhibit_under_reading = false/service_in_target = true//[track]/length = 200000//[[track.speed]]/delayed = true/speed = 160/start = 0//[train]/emergency_time = 0/length = 10000/max_speed = 160/rotating_mass = 0/service_brake = true/service_time = 0/traction_cutoff_interface = false/traction_cutoff_time = 0//[[train.band]]/emergency = 100/kdry = 1000/kn_down = 0/kn_up = 0/kwet = 1000/normal = 100/service = 100/ | 3 | sdm: write fault/
upgrade | - | - | 1000; -; 3; - | version = 2//[authority]/eoa = 100000/kind = "end"/release = 0/svl = 100000//[national]/adhesion_max = 70/avadh = 20/early_release = false/guidance = false/inhibit_under_reading = false/service_in_target = true//[track]/length = 200000//[[track.speed]]/delayed = true/speed = 160/start = 0//[train]/emergency_time = 0/length = 10000/max_speed = 160/rotating_mass = 0/service_brake = true/service_time = 0/traction_cutoff_interface = false/traction_cutoff_time = 0//[[train.band]]/emergency = 100/kdry = 1000/kn_down = 0/kn_up = 0/kwet = 1000/normal = 100/service = 100/ | 0 | -"#;

/// The line of a fault can fail, too, which changes no outcome.
pub const UNTOLD: &str = "\
    - | none | - | 1000; -; -; - | - | 1 | sdm: bad words/
    - | none | - | 1000; -; -; 1 | - | 1 | -
    - | none | - | 1000; -; -; 2 | - | 1 | sdm: bad words/
    run | none | - | 1000; -; -; 1 | - | 5 | -
    run | none | - | 1000; -; -; 2 | - | 5 | sdm: bad data: no %% line/";
