//! The national values that supervision works with: each number is within its range. (SUBSET-026-3 3.13.2.3, A.3.2)

ghost use Rattle.std.specs.Prelude.{◌≡◌, ◌≤ℤ◌, IfOk, pos};
ghost use Rattle.std.specs.Result.{result_err};
ghost use Rattle.sdm_rules.specs.Ranges.{national_fault};
ghost use Rattle.sdm_national.specs.Values.{IsNational};

use sdm_rules::{NationalFault, NationalFields, first_refused, keys, outside};
use std::marker::Model;

/// National values, each number within its range. (SUBSET-026-3 3.13.2.3; ranges own)
#[derive(Clone, Copy, Debug, PartialEq, Eq)]
pub struct National {
    fields: NationalFields,
}

impl Model for National {
    ghost use Rattle.sdm_rules.specs.declared.data.NationalFields.{NationalFields};
    ghost use Rattle.sdm_national.specs.Values.{IsNational};

    ghost Value = { NationalFields };

    ghost view = { λ n. n.fields };

    ghost invariant = { λ n. IsNational n.fields };

    ghost inverse = { λ f. record { fields = f } };
}

impl National {
    /// National values of these fields. Err(Value) exactly where M_NVAVADH is outside 0 to 20 twentieths, or else
    /// A_NVMAXREDADH outside 1 to 400 cm/s², with its key. (ranges own)
    #[tactic(auto, unfolding(sdm_rules::specs::Ranges::national_fault))]
    pub fn new(fields: NationalFields) -> Result<National, NationalFault>
        ensures fault { result_err result ≡ national_fault fields }
        ensures kept { IfOk result (λ national. national ≡ fields) }
    {
        let refused = first_refused(&[
            outside(keys::NATIONAL_AVADH, fields.avadh, 0, 20),
            outside(keys::NATIONAL_ADHESION_MAX, fields.adhesion_max, 1, 400),
        ]);
        match refused {
            Some(key) => Err(NationalFault::Value { key }),
            None => Ok(National { fields }),
        }
    }

    /// M_NVAVADH in twentieths, 0 to 20. The clause `accepted` says what holds of all the values.
    pub fn avadh(&self) -> i64
        ensures value { result ≡ self.now.avadh }
        ensures range { (pos 0 ≤ℤ result) × (result ≤ℤ pos 20) }
        ensures accepted { IsNational self.now }
    {
        self.fields.avadh
    }

    /// A_NVMAXREDADH for this train in cm/s², 1 to 400.
    pub fn adhesion_max(&self) -> i64
        ensures value { result ≡ self.now.adhesion_max }
        ensures range { (pos 1 ≤ℤ result) × (result ≤ℤ pos 400) }
    {
        self.fields.adhesion_max
    }

    /// Q_NVGUIPERM: guidance curves are permitted.
    pub fn guidance(&self) -> bool
        ensures { result ≡ self.now.guidance }
    {
        self.fields.guidance
    }

    /// Q_NVSBTSMPERM: the service brake is permitted, here in ceiling and target speed monitoring together.
    pub fn service_in_target(&self) -> bool
        ensures { result ≡ self.now.service_in_target }
    {
        self.fields.service_in_target
    }

    /// Q_NVEMRRLS: the emergency brake may be released before standstill.
    pub fn early_release(&self) -> bool
        ensures { result ≡ self.now.early_release }
    {
        self.fields.early_release
    }

    /// Q_NVINHSMICPERM: the under-reading of the speed is not compensated.
    pub fn inhibit_under_reading(&self) -> bool
        ensures { result ≡ self.now.inhibit_under_reading }
    {
        self.fields.inhibit_under_reading
    }
}
