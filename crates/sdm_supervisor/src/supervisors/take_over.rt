//! A change of data in motion: a supervisor that was opened over the new data, beside the one that runs, takes over what
//! is kept.

ghost use Rattle.std.specs.Prelude.{◌≡◌, None, Some, IfErr, OnErr, OnOk, true};
ghost use Rattle.std.specs.FinMap as finite;
ghost use Rattle.sdm_rules.specs.TakeOver.{take_over_fault, taken_over};
ghost use Rattle.sdm_supervisor.specs.TakeOvers.{is_fresh};

use super::Supervisor;
use sdm_rules::TakeOverFault;

impl Supervisor {
    /// Whether no restriction is in force and no reading was taken, as after the opening. (own)
    pub fn is_fresh(&self) -> bool
        ensures value { result ≡ is_fresh self.now }
        ensures unrestricted { result ≡ true → self.now.restrictions ≡ finite.empty }
    {
        let restrictions = self.profile.held_count();
        restrictions == 0 && self.last_time.is_none()
    }

    /// Takes over from a supervisor that ran before what is kept over a change of data: the restrictions in force, the
    /// time of the last reading, and the commands with the status. The data and the authority stay, and no memory is
    /// taken. No restriction may be in force here before. Refused by the first restriction, by identity, that ends past
    /// this track's end; nothing is then changed. (own)
    pub fn take_over(&mut self, before: &Supervisor) -> Result<(), TakeOverFault>
        requires fresh { self.old.restrictions ≡ finite.empty }
        ensures accepted { OnOk result
            (take_over_fault self.old.train_and_track.track.length_cm before.now.restrictions ≡ None) }
        ensures taken { OnOk result (self.new ≡ taken_over self.old before.now) }
        ensures refused { IfErr result
            (λ fault. take_over_fault self.old.train_and_track.track.length_cm before.now.restrictions ≡ Some fault) }
        ensures unchanged { OnErr result (self.new ≡ self.old) }
    {
        if let Some(id) = before.profile.first_beyond(self.profile.track_cm()) {
            return Err(TakeOverFault::BeyondTrack { id });
        }
        self.profile.take_restrictions(&before.profile);
        self.kept.take_restrictions(&self.braking, &self.profile);
        self.last_time = before.last_time;
        self.held = before.held;
        Ok(())
    }
}
