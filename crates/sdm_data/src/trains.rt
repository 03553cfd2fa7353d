//! The section `train` with its bands. (SUBSET-026-3 3.13.2.2)

ghost use Rattle.std.specs.Prelude.{◌≡◌, ◌≢◌, ◌-◌, ◌^◌, IfErr, IfOk, Ok, Err, length, min, option_map, take};
ghost use Rattle.std.specs.Result.{result_err};
ghost use Rattle.toml.specs.View.{table_view};
ghost use Rattle.sdm_rules.specs.Data.{train_of};
ghost use Rattle.sdm_rules.specs.Ranges.{train_fault};
ghost use Rattle.sdm_rules.specs.Slopes.{most_bands};
ghost use Rattle.sdm_data.specs.Sections.{band_in, train_in};
ghost use Rattle.sdm_data.specs.Given.{given_train, with_first_bands};

use crate::lists::{ReadEntry, entries};
use crate::section_tables::SectionTable;
use crate::versions::Version;
use sdm_formats::{BASE_BAND, DataFault};
use sdm_rules::{Band, MOST_BANDS, Section, TrainFields, keys};
use sdm_train::Train;
use std::alloc::Global;
use toml::Table;

/// A train as it is given: its own keys, in fields that have no bands, and all of its bands, which may be more than a
/// train may have. (own)
#[derive(Drop)]
pub struct GivenTrain {
    pub own: TrainFields,
    pub bands: Vec<Band>,
}

impl ReadEntry for Band {
    ghost entry_in = { λ list. band_in };

    #[tactic(auto, unfolding(crate::specs::Sections::band_in))]
    fn read(
        _list: Section,
        version: Version,
        index: u32,
        table: &Table,
    ) -> Result<Band, DataFault> {
        let band = SectionTable::new(table, Section::Band, index);
        band.known_in(version)?;
        Ok(Band {
            upper: band.integer_if_any(keys::BAND_UPPER)?,
            emergency: band.integer(keys::BAND_EMERGENCY)?,
            service: band.integer(keys::BAND_SERVICE)?,
            normal: band.integer(keys::BAND_NORMAL)?,
            kdry: band.integer(keys::BAND_KDRY)?,
            kwet: band.integer(keys::BAND_KWET)?,
            kn_up: band.integer(keys::BAND_KN_UP)?,
            kn_down: band.integer(keys::BAND_KN_DOWN)?,
            emergency_reduced: band.integer_if_any(keys::BAND_EMERGENCY_REDUCED)?,
        })
    }
}

/// The train that a table holds, or the first rule that it breaks, unless memory was refused first. (own)
#[tactic(auto, unfolding(crate::specs::Sections::train_in))]
pub fn train_in(alloc: Global, version: Version, table: &Table) -> Result<GivenTrain, DataFault>
    ensures train { IfOk result (λ given. train_in version (table_view table.now) ≡ Ok (given_train given)) }
    ensures refused { IfErr result
        (λ fault. fault ≢ DataFault.Memory → train_in version (table_view table.now) ≡ Err fault) }
{
    let train = SectionTable::new(table, Section::Train, 0);
    train.known_in(version)?;
    let own = TrainFields {
        length: train.integer(keys::TRAIN_LENGTH)?,
        max_speed: train.integer(keys::TRAIN_MAX_SPEED)?,
        rotating_mass: train.integer_if_any(keys::TRAIN_ROTATING_MASS)?,
        traction_cutoff_time: train.integer(keys::TRAIN_TRACTION_CUTOFF_TIME)?,
        traction_cutoff_interface: train.flag(keys::TRAIN_TRACTION_CUTOFF_INTERFACE)?,
        emergency_time: train.integer(keys::TRAIN_EMERGENCY_TIME)?,
        service_time: train.integer(keys::TRAIN_SERVICE_TIME)?,
        service_brake: train.flag(keys::TRAIN_SERVICE_BRAKE)?,
        bands: [BASE_BAND; MOST_BANDS],
        band_count: 0,
    };
    let bands = train.tables(keys::TRAIN_BAND)?;
    let bands = entries(alloc, Section::Band, version, bands)?;
    Ok(GivenTrain { own, bands })
}

impl GivenTrain {
    /// The train, or the first rule that it breaks: BandCount where more bands were given than a train may have. (own)
    #[tactic(auto, using(crate::proofs::AcceptedData::same_train_fault))]
    pub fn accepted(&self) -> Result<Train, DataFault>
        ensures fault { result_err result
            ≡ option_map DataFault.Train (train_fault (length self.now.bands.items) (given_train self.now)) }
        ensures kept { IfOk result (λ train. train ≡ given_train self.now) }
    {
        match Train::new(self.fields()) {
            Ok(train) => Ok(train),
            Err(fault) => Err(DataFault::Train(fault)),
        }
    }

    /// The fields that are handed in: of the bands the first ones, as many as a train may have, and the count of all.
    fn fields(&self) -> TrainFields
        ensures train { train_of result ≡ with_first_bands (given_train self.now) }
        ensures count { result.band_count ≡ min (length self.now.bands.items) (2 ^ 32 - 1) }
    {
        let mut fields = self.own;
        fields.bands = first_bands(&self.bands);
        fields.band_count = u32::try_from(self.bands.len()).unwrap_or(u32::MAX);
        fields
    }
}

/// The first bands, as many as a train may have.
fn first_bands(bands: &[Band]) -> [Band; MOST_BANDS]
    ensures { take (min (length bands.now) most_bands) result ≡ take most_bands bands.now }
{
    let mut first = [BASE_BAND; MOST_BANDS];
    let held = bands.len().min(MOST_BANDS);
    first[..held].copy_from_slice(&bands[..held]);
    first
}
