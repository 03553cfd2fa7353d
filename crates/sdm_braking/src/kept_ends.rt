//! The targets at the end of the authority with their curves, as a supervisor keeps them between records. They follow
//! from the train and track and the authority alone.

ghost use Rattle.std.specs.Prelude.{◌≡◌, ◌≤◌, ◌≤ℤ◌, None, false, pos, true};
ghost use Rattle.sdm_rules.specs.Cells.{place_of_cell};
ghost use Rattle.sdm_rules.specs.Records.{authority_fault};
ghost use Rattle.sdm_rules.specs.Ranges.{top_kmh};
ghost use Rattle.sdm_targets.specs.Lists.{IsTarget};
ghost use Rattle.sdm_braking.specs.KeptCurves.{IsKeptAt, IsKeptEnd, brake_curve_of, is_stop};

use crate::braking::Braking;
use crate::kept_targets::KeptTarget;
use sdm_curve::Curve;
use sdm_num::Place;
use sdm_targets::{Authority, Target, TargetKind};

/// The targets at the end of an authority: the EOA and the SvL, or the LOA. (SUBSET-026-3 3.13.8.2; own)
#[derive(Clone, Copy, Debug)]
pub enum KeptEnd {
    Stop { eoa: KeptTarget, svl: KeptTarget },
    Limit { loa: KeptTarget },
}

impl Braking {
    /// The target of a kind at a place in cm on the track.
    fn target_at(&self, kind: TargetKind, cm: u32, speed: u16) -> Target
        requires place { pos cm ≤ℤ self.now.track.length_cm }
        requires speed { speed ≤ top_kmh }
        ensures value { result ≡ record { kind = kind; place = place_of_cell (pos cm); speed = speed } }
        ensures in_range { IsTarget result }
    {
        prove!(cm <= self.track_cm());
        Target {
            kind,
            place: Place::of_cm_from_0(cm),
            speed,
        }
    }

    /// The target of a kind at a place in cm on the track, with its curves.
    fn keep_at(&self, kind: TargetKind, cm: u32, speed: u16) -> KeptTarget
        requires place { pos cm ≤ℤ self.now.track.length_cm }
        requires speed { speed ≤ top_kmh }
        ensures { IsKeptAt self.now (record { kind = kind; place = place_of_cell (pos cm); speed = speed }) result }
    {
        self.keep(self.target_at(kind, cm, speed))
    }

    /// Puts such a target in the place of another one.
    fn keep_at_over(&self, kind: TargetKind, cm: u32, speed: u16, kept: &mut KeptTarget)
        requires place { pos cm ≤ℤ self.now.track.length_cm }
        requires speed { speed ≤ top_kmh }
        ensures { IsKeptAt self.now (record { kind = kind; place = place_of_cell (pos cm); speed = speed }) kept.new }
    {
        self.keep_over(self.target_at(kind, cm, speed), kept);
    }

    /// The targets at the end of an authority, with their curves.
    pub fn keep_end(&self, authority: &Authority) -> KeptEnd
        requires { authority_fault self.now.track.length_cm authority.now ≡ None }
        ensures { IsKeptEnd self.now authority.now result }
    {
        match *authority {
            Authority::Stop { eoa, svl, .. } => KeptEnd::Stop {
                eoa: self.keep_at(TargetKind::Eoa, eoa, 0),
                svl: self.keep_at(TargetKind::Svl, svl, 0),
            },
            Authority::Limit { loa, speed } => KeptEnd::Limit {
                loa: self.keep_at(TargetKind::Loa, loa, speed),
            },
        }
    }
}

impl KeptEnd {
    /// Makes room for an EOA and an SvL: copies of an LOA, where one is kept, stand there until these are made.
    // Seldom called: out of line, its copies of targets take no stack where a new authority's curves are made.
    #[inline(never)]
    fn turn_to_stop(&mut self)
        ensures { is_stop self.new ≡ true }
    {
        if let KeptEnd::Limit { loa: eoa } = *self {
            let svl = eoa;
            *self = KeptEnd::Stop { eoa, svl };
        }
    }

    /// Makes room for an LOA: a copy of an SvL, where one is kept, stands there until it is made.
    // Seldom called: out of line, its copies of targets take no stack where a new authority's curves are made.
    #[inline(never)]
    fn turn_to_limit(&mut self)
        ensures { is_stop self.new ≡ false }
    {
        if let KeptEnd::Stop { svl, .. } = *self {
            *self = KeptEnd::Limit { loa: svl };
        }
    }

    /// Takes the targets at the end of another authority. They are large, so each is made in the place of one before it.
    pub fn take(&mut self, braking: &Braking, authority: &Authority)
        requires { authority_fault braking.now.track.length_cm authority.now ≡ None }
        ensures { IsKeptEnd braking.now authority.now self.new }
    {
        match *authority {
            Authority::Stop {
                eoa: eoa_cm,
                svl: svl_cm,
                ..
            } => {
                self.turn_to_stop();
                let KeptEnd::Stop { eoa, svl } = self else {
                    unreachable!()
                };
                braking.keep_at_over(TargetKind::Eoa, eoa_cm, 0, eoa);
                braking.keep_at_over(TargetKind::Svl, svl_cm, 0, svl);
            }
            Authority::Limit { loa: loa_cm, speed } => {
                self.turn_to_limit();
                let KeptEnd::Limit { loa } = self else {
                    unreachable!()
                };
                braking.keep_at_over(TargetKind::Loa, loa_cm, speed, loa);
            }
        }
    }

    /// The EBD of the SvL or of the LOA.
    pub fn brake_curve(&self) -> &Curve
        ensures { result.now ≡ brake_curve_of self.now }
    {
        match self {
            KeptEnd::Stop { svl, .. } => &svl.brake,
            KeptEnd::Limit { loa } => &loa.brake,
        }
    }
}
