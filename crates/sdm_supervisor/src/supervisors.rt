//! The supervisor of a journey. All its memory is taken when it begins; a record takes none. What it is worth is said
//! by the clauses of `cycle`: its commands lie between those of a machine with exact limits of targets and those of the
//! same machine with each a millimetre earlier, and from every covered row every motion within the reading's bounds
//! stops at or before the SvL, if there is one.

ghost use Rattle.std.specs.Prelude.{◌≡◌, ◌+◌, ◌≤◌, ◌≤ℤ◌, pos, MatchOption, IsTrue, false, None, Some, IfOk, IfErr};
ghost use Rattle.std.specs.Prelude.{OnOk, OnErr, length};
ghost use Rattle.sdm_rules.specs.declared.authorities.Authority.TheVariants.{Stop};
ghost use Rattle.sdm_rules.specs.Display.{passes_limit, release_speed_of, shown_target_of};
ghost use Rattle.sdm_rules.specs.Machines.{KeepsOrder};
ghost use Rattle.sdm_rules.specs.Opening.{IsAccepted, IsOpen};
ghost use Rattle.sdm_rules.specs.Promises.{BeginsReleaseMonitoring, HasOnlyGaps, IsWithinCeiling};
ghost use Rattle.sdm_rules.specs.Records.{authority_fault, restrict_fault, revoke_fault, time_fault, trip_fault};
ghost use Rattle.sdm_rules.specs.Release.{IsReleaseSpeed, calculated};
ghost use Rattle.sdm_rules.specs.Stop.{IsSafe};
ghost use Rattle.sdm_rules.specs.Supervision.{after_authority, after_reading, after_restriction, after_revocation};
ghost use Rattle.sdm_rules.specs.Supervision.{opening, profile_of, row_of, situation_of};
ghost use Rattle.sdm_rules.specs.Targets.{is_fall};
ghost use Rattle.sdm_rules.specs.Ranges.{top_kmh};
ghost use Rattle.sdm_targets.specs.Lists.{most_falls};
ghost use Rattle.sdm_supervisor.specs.Supervised.{IsAuthorityCurve, IsFallCurve};
ghost use Rattle.sdm_braking.specs.Braking.{IsRefusal};
ghost use Rattle.sdm_supervisor.specs.Sights.{seen_at};
ghost use Rattle.sdm_rules.specs.declared.display.LimitName.{LimitName};
ghost use Rattle.sdm_laws.specs.Falls.{MeetsFalls};
ghost use Rattle.sdm_laws.specs.SupervisionLaws.{IsPassedUpwards};
ghost use Rattle.sdm_laws.specs.TripPlaces.{HasItsTrip};
ghost use Rattle.sdm_row_laws.specs.AllCommands.{KeepsAllOrder};
ghost use Rattle.sdm_row_laws.specs.CoveredFalls.{MeetsEachFall};
ghost use Rattle.sdm_row_laws.specs.OpenTurns.{HasNearLimits};
ghost use Rattle.sdm_row_laws.specs.ServiceStop.{CommandsNoBrake, StopsByItsEoa};

mod asked;
mod clear;
mod explained;
mod take_over;
mod trips;
mod within;

use crate::sight::Sight;
use sdm_braking::{Braking, Kept, KeptEnd, TrainAndTrack};
use sdm_curve::Curve;
use sdm_national::National;
use sdm_num::Reading;
use sdm_rules::{
    CycleFault, LimitName, OpenFault, RestrictFault, Restriction, RevokeFault, Row, Shown,
    TripFault,
};
use sdm_speed::Profile;
use sdm_state::{Held, Status};
use sdm_targets::{Authority, AuthorityFault, check_authority, check_trip};
use sdm_track::Track;
use sdm_train::Train;
use std::alloc::Global;
use std::marker::Model;

/// The supervisor of a journey: its value is the supervision state of the definitions, that is the data, the
/// authority, the temporary restrictions in force, the time of the last reading, and the commands that are held.
/// (SUBSET-026-3 3.13.10; own)
#[derive(Drop)]
pub struct Supervisor {
    braking: Braking,
    authority: Authority,
    profile: Profile,
    /// Kept between records: the targets of the profile and the authority with their curves.
    kept: Kept,
    last_time: Option<u32>,
    held: Held,
}

impl Model for Supervisor {
    ghost use Rattle.std.specs.Coded.{codes};
    ghost use Rattle.sdm_speed.specs.Codes.{coded_restrictions};
    ghost use Rattle.sdm_rules.specs.Supervision.{Supervision};
    ghost use Rattle.sdm_supervisor.specs.Supervised.{IsSupervisorOf};

    ghost Value = { Supervision };

    ghost coded = { Prim.hlevel (codes, coded_restrictions) };

    ghost view = { λ s. record {
      train_and_track = s.braking;
      authority = s.authority;
      restrictions =
          s.profile.restrictions;
      last_time = s.last_time;
      commands = s.held;
    } };

    ghost invariant = { λ s. IsSupervisorOf s.braking s.profile s.authority s.kept };
}

/// Before the first reading no command is held. (own)
const NOTHING_HELD: Held = Held {
    tco: false,
    sb: false,
    eb: false,
    status: Status::N,
};

impl Supervisor {
    /// The supervisor of a journey with its first authority: no restriction is in force, no reading was taken, and no
    /// command is held. It is refused by the first of these: slopes that are too weak or too varied, of the safe, then
    /// of the expected, then of the normal kind (TooWeak before TooVaried); an authority that `check_authority`
    /// refuses for the track. Memory may come in place of each. (SUBSET-026-3 3.13.2; refusals own)
    pub fn begin(
        alloc: Global,
        train: Train,
        national: National,
        track: Track,
        authority: Authority,
    ) -> Result<Supervisor, OpenFault>
        ensures opening { IfOk result
            (λ s. s ≡ opening (record { train = train; national = national; track = track }) authority) }
        ensures accepted { OnOk result
            (IsAccepted (record { train = train; national = national; track = track }) authority) }
        ensures refused { IfErr result
            (IsRefusal (record { train = train; national = national; track = track }) authority) }
    {
        let train_and_track = TrainAndTrack {
            train,
            national,
            track,
        };
        Supervisor::open(alloc, train_and_track, authority)
    }

    /// The supervisor of a train on its track with its first authority, as `begin` says.
    pub fn open(
        alloc: Global,
        train_and_track: TrainAndTrack,
        authority: Authority,
    ) -> Result<Supervisor, OpenFault>
        ensures opening { IfOk result (λ s. s ≡ opening train_and_track authority) }
        ensures accepted { OnOk result (IsAccepted train_and_track authority) }
        ensures refused { IfErr result (IsRefusal train_and_track authority) }
    {
        let braking = Braking::open(alloc, train_and_track)?;
        Supervisor::with_braking(alloc, braking, authority)
    }

    /// The supervisor over how a train is braked on its track, with its first authority.
    fn with_braking(
        alloc: Global,
        braking: Braking,
        authority: Authority,
    ) -> Result<Supervisor, OpenFault>
        ensures opening { IfOk result (λ s. s ≡ opening braking authority) }
        ensures accepted { OnOk result (IsAccepted braking authority) }
        ensures refused { IfErr result (IsRefusal braking authority) }
    {
        check_authority(&authority, braking.track_cm()).map_err(OpenFault::BadAuthority)?;
        let Ok(profile) = Profile::begin(
            alloc,
            braking.track(),
            braking.max_speed_kmh(),
            braking.train_cm(),
        ) else {
            return Err(OpenFault::Memory);
        };
        let Ok(kept) = Kept::begin(alloc, &braking, &profile, &authority) else {
            return Err(OpenFault::Memory);
        };
        Ok(Supervisor {
            braking,
            authority,
            profile,
            kept,
            last_time: None,
            held: NOTHING_HELD,
        })
    }

    /// Takes a new authority in place of the old one; no command changes. Refused where `check_authority` refuses it
    /// for the track; nothing is then changed. (SUBSET-026-3 3.8; refusals own)
    pub fn authority(&mut self, a: Authority) -> Result<(), AuthorityFault>
        ensures accepted { OnOk result (authority_fault self.old.train_and_track.track.length_cm a ≡ None) }
        ensures taken { OnOk result (self.new ≡ after_authority self.old a) }
        ensures refused { IfErr result
            (λ fault. authority_fault self.old.train_and_track.track.length_cm a ≡ Some fault) }
        ensures unchanged { OnErr result (self.new ≡ self.old) }
    {
        check_authority(&a, self.braking.track_cm())?;
        self.take_authority(a);
        Ok(())
    }

    /// Takes an authority that is accepted for the track.
    fn take_authority(&mut self, a: Authority)
        requires { authority_fault self.old.train_and_track.track.length_cm a ≡ None }
        ensures { self.new ≡ after_authority self.old a }
    {
        self.kept.take_authority(&self.braking, &a);
        self.authority = a;
    }

    /// The calculated release speed in km/h, 0 to 500, of a stop with its SvL at `svl` cm on the track, for a train
    /// that is tripped with its front end at `trip` cm, at or before the SvL: the greatest whole speed from which it
    /// stops by the SvL, but that the next one may do so by limits less than a millimetre later. No memory is taken.
    /// (SUBSET-026-3 3.13.9.4.8; own: the place of the trip is handed in)
    pub fn release_for(&self, svl: u32, trip: u32) -> u16
        requires svl { pos svl ≤ℤ self.now.train_and_track.track.length_cm }
        requires trip { trip ≤ svl }
        ensures value { result ≡ calculated self.now.train_and_track svl trip }
        ensures range { result ≤ top_kmh }
        ensures stops { IsReleaseSpeed self.now.train_and_track svl trip result }
    {
        self.braking.calculated_release(svl, trip)
    }

    /// The release speed of the authority in km/h, 0 to 500; 0 for a limit of authority. (SUBSET-026-3 3.13.9.4; own)
    pub fn release(&self) -> u16
        ensures { result ≡ release_speed_of self.now.authority }
    {
        match self.authority {
            Authority::Stop { release, .. } => release,
            Authority::Limit { .. } => 0,
        }
    }

    /// Takes a stop with the calculated release speed of `release_for` in place of the old authority; no command
    /// changes. Refused where `check_authority` refuses a stop at these places for the track, else where the place of
    /// the trip lies before the EOA or past the SvL (BadTrip); nothing is then changed. Places are in cm. Of the speed
    /// it says what `release_for` does. (SUBSET-026-3 3.8, 3.13.9.4.8; refusals own)
    pub fn calculated_stop(&mut self, eoa: u32, svl: u32, trip: u32) -> Result<(), TripFault>
        ensures accepted { OnOk result (trip_fault self.old.train_and_track.track.length_cm eoa svl trip ≡ None) }
        ensures taken { OnOk result (self.new ≡ after_authority self.old
            (Stop eoa svl (calculated self.old.train_and_track svl trip))) }
        ensures stops { OnOk result (IsReleaseSpeed self.old.train_and_track svl trip
            (calculated self.old.train_and_track svl trip)) }
        ensures trip { OnOk result (HasItsTrip self.old.train_and_track eoa svl trip) }
        ensures refused { IfErr result
            (λ fault. trip_fault self.old.train_and_track.track.length_cm eoa svl trip ≡ Some fault) }
        ensures unchanged { OnErr result (self.new ≡ self.old) }
    {
        check_trip(eoa, svl, trip, self.braking.track_cm())?;
        let release = self.release_for(svl, trip);
        self.take_authority(Authority::Stop { eoa, svl, release });
        Ok(())
    }

    /// Puts a temporary restriction of 1 to 500 km/h into force. Refused where 32 are held, where one with its
    /// identity is held, and where it ends at or before its start or past the track's end; nothing is then changed.
    /// (SUBSET-026-3 3.11.5; refusals own)
    pub fn restrict(&mut self, r: Restriction) -> Result<(), RestrictFault>
        requires slowest { 1 ≤ r.speed }
        requires fastest { r.speed ≤ top_kmh }
        ensures accepted { OnOk result
            (restrict_fault self.old.train_and_track.track.length_cm self.old.restrictions r ≡ None) }
        ensures taken { OnOk result (self.new ≡ after_restriction self.old r) }
        ensures refused { IfErr result
            (λ fault. restrict_fault self.old.train_and_track.track.length_cm self.old.restrictions r ≡ Some fault) }
        ensures unchanged { OnErr result (self.new ≡ self.old) }
    {
        self.profile.set(r)?;
        self.kept.restrict(&self.braking, &self.profile, r);
        Ok(())
    }

    /// Takes a temporary restriction out of force. Refused where none with this identity is held; nothing is then
    /// changed. (own)
    pub fn revoke(&mut self, id: u16) -> Result<(), RevokeFault>
        ensures accepted { OnOk result (revoke_fault self.old.restrictions id ≡ None) }
        ensures taken { OnOk result (self.new ≡ after_revocation self.old id) }
        ensures refused { IfErr result (λ fault. revoke_fault self.old.restrictions id ≡ Some fault) }
        ensures unchanged { OnErr result (self.new ≡ self.old) }
    {
        self.profile.revoke(id)?;
        self.kept.revoke(&self.braking, &self.profile, id);
        Ok(())
    }

    /// The EBD of the fall of the MRSP at the start of a cell; none where the MRSP does not fall there. (SUBSET-026-3
    /// 3.13.8.3; own)
    pub fn fall_curve(&self, cell: i32) -> Option<&Curve>
        requires { pos 0 ≤ℤ cell }
        ensures { MatchOption result
            (is_fall (profile_of self.now) cell ≡ false) (λ curve. IsFallCurve self.now cell curve.now) }
    {
        match self.kept.falls.at(cell) {
            Some(fall) => Some(&fall.kept.brake),
            None => None,
        }
    }

    /// The EBD of the SvL or of the LOA of the authority. (SUBSET-026-3 3.13.8.3; own)
    pub fn authority_curve(&self) -> &Curve
        ensures { IsAuthorityCurve self.now result.now }
    {
        self.kept.end.brake_curve()
    }

    /// What is seen at a reading. No memory is taken. (SUBSET-026-3 3.13.10; own)
    // In line: a reading would pay for each of its parts to be handed over.
    #[inline(always)]
    pub fn sight<'a>(&'a self, reading: &'a Reading) -> Sight<'a>
        ensures seen { result ≡ seen_at self.now reading.now }
        ensures few { length result.situation.targets ≤ most_falls + 2 }
        ensures accepted { IsOpen self.now }
        ensures upwards { (name : LimitName) → IsPassedUpwards self.now reading.now name }
    {
        // the time is told with it that the reading is in its ranges
        prove!(reading.time() <= 100_000_000);
        let front = reading.max_mm();
        let cell = front.cell();
        let end = match self.authority {
            Authority::Stop { eoa, .. } => eoa,
            Authority::Limit { loa, .. } => loa,
        };
        let ahead = self.kept.falls.ahead(cell, end);
        Sight {
            braking: &self.braking,
            reading,
            ceiling_kmh: self.profile.lowest(reading.min_mm().cell(), cell),
            // past the EOA, where there is one, by the min safe front end (SUBSET-026-3 3.13.10; own)
            past_end: match &*self.kept.end {
                KeptEnd::Stop { eoa, .. } => eoa.target.place < reading.min_mm(),
                KeptEnd::Limit { .. } => false,
            },
            // (SUBSET-026-3 3.13.10.5)
            release_kmh: match self.kept.release {
                Some(release) if release.start.is_passed_by(front) => Some(release.speed_kmh),
                _ => None,
            },
            in_use: self.braking.is_service_in_use(),
            falls: ahead.falls,
            brake_steps: ahead.brake_steps,
            guide_steps: ahead.guide_steps,
            end: &self.kept.end,
        }
    }

    /// Whether the train would pass a limit at a speed in km/h, at most 500, in place of the reading's, all else as in
    /// the reading. At 0 it passes none, and what it passes at a speed it passes at each greater one. At each speed a
    /// computed limit is less than a millimetre before the exact one, and not past it. No memory is taken.
    /// (SUBSET-026-3 3.13.10; own)
    pub fn would_pass(&self, reading: &Reading, name: LimitName, kmh: u16) -> bool
        requires { kmh ≤ top_kmh }
        ensures value { result
            ≡ passes_limit self.now.train_and_track reading.now (situation_of self.now reading.now) name kmh }
        ensures upwards { IsPassedUpwards self.now reading.now name }
        ensures limits { HasNearLimits self.now reading.now }
    {
        self.sight(reading).would_pass(name, kmh)
    }

    /// The target that counts at a reading, with its speed and its distance; none where no target is slower than the
    /// train. No memory is taken. (own)
    pub fn shown(&self, reading: &Reading) -> Option<Shown>
        ensures { result ≡ shown_target_of self.now reading.now }
    {
        self.sight(reading).shown()
    }

    /// The time of the last reading that was taken, in ds; none before the first one. A reading that repeats it is judged
    /// too, though it tells nothing new: whoever waits for a new one compares. (own)
    pub fn last_time(&self) -> Option<u32>
        ensures { result ≡ self.now.last_time }
    {
        self.last_time
    }

    /// Judges a reading, and takes its time and the commands after it. TimeBack comes exactly where its time is before
    /// that of the last reading, and changes nothing. (SUBSET-026-3 3.13.10; own)
    ///
    /// The row is that of the definitions. Its commands, its status and its state keep the order of the three machines:
    /// that with exact limits of targets, this one, and that with every limit one millimetre earlier. From a covered
    /// row every motion within the bounds of the reading stops by the SvL, where there is one, and meets each speed
    /// target; without emergency command it meets each fall that isn't behind the min safe front end, too, and with one
    /// it has at such a fall that the max safe front end has reached at most V_bec or its foot speed with the gain. A
    /// row without emergency command that isn't covered has a gap, which is a speed target. From the row of a moving
    /// train under a stop that commands no brake, outside release speed monitoring, the service brake stops it by the
    /// EOA. Without emergency command the estimated speed is at most the ceiling with its EBI margin. Each computed
    /// limit is less than a millimetre before the exact one, each printed one less than two, and none past it.
    pub fn cycle(&mut self, reading: &Reading) -> Result<Row, CycleFault>
        ensures in_time { OnOk result (time_fault self.old.last_time reading.now.time ≡ None) }
        ensures row { IfOk result (λ row. row ≡ row_of self.old reading.now) }
        ensures taken { OnOk result (self.new ≡ after_reading self.old reading.now) }
        ensures order { IfOk result (λ row. KeepsOrder self.old reading.now row.held.eb) }
        ensures commands { IfOk result (λ row. KeepsAllOrder self.old reading.now row) }
        ensures safe { IfOk result (λ row. IsTrue row.covered → IsSafe self.old reading.now) }
        ensures eoa { IfOk result (λ row. CommandsNoBrake reading.now row → StopsByItsEoa self.old reading.now) }
        ensures falls { IfOk result
            (λ row. IsTrue row.covered → row.held.eb ≡ false → MeetsFalls self.old reading.now) }
        ensures each_fall { IfOk result (λ row. IsTrue row.covered → MeetsEachFall self.old reading.now) }
        ensures limits { OnOk result (HasNearLimits self.old reading.now) }
        ensures gaps { IfOk result (λ row. row.held.eb ≡ false → HasOnlyGaps self.old reading.now) }
        ensures ceiling { IfOk result (λ row. row.held.eb ≡ false → IsWithinCeiling reading.now row) }
        ensures release { OnOk result (BeginsReleaseMonitoring self.old reading.now) }
        ensures few { OnOk result (length (situation_of self.old reading.now).targets ≤ most_falls + 2) }
        ensures time_back { IfErr result (λ fault. time_fault self.old.last_time reading.now.time ≡ Some fault) }
        ensures unchanged { OnErr result (self.new ≡ self.old) }
    {
        let time = reading.time();
        if let Some(last) = self.last_time {
            if time < last {
                return Err(CycleFault::TimeBack { last, time });
            }
        }
        let row = self.sight(reading).row(self.held);
        self.held = row.held;
        self.last_time = Some(time);
        Ok(row)
    }
}
