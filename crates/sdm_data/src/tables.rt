//! The table of version 2 of a journey's data: section by section what its keys hold.

ghost use Rattle.std.specs.Prelude.{◌≡◌, IfOk, Ok, None, length};
ghost use Rattle.toml.specs.Data.{Members};
ghost use Rattle.toml.specs.View.{table_view};
ghost use Rattle.sdm_rules.specs.declared.authorities.Authority.{Authority};
ghost use Rattle.sdm_rules.specs.Data.{TrainAndTrack};
ghost use Rattle.sdm_rules.specs.Ranges.{national_fault, track_fault, train_fault};
ghost use Rattle.sdm_data.specs.Journey.{data_of};
ghost use Rattle.sdm_data.specs.Tables.{IsAuthorityInRange, area_table, authority_table, band_table, gradient_table};
ghost use Rattle.sdm_data.specs.Tables.{national_table, speed_table, table_of, track_table, train_table};

use crate::entry_tables::{WriteEntry, array_if_any, array_of};
use crate::journeys::JourneyData;
use crate::section_writers::SectionWriter;
use sdm_national::National;
use sdm_num::NoMemory;
use sdm_rules::{Area, Authority, Band, Gradient, Section, SpeedStep, keys};
use sdm_track::Track;
use sdm_train::Train;
use std::alloc::Global;
use toml::Table;

/// The version of the tables that are made. (own)
const VERSION: i64 = 2;

/// The table of version 2 that holds these data: read again it gives just them, where they are data that were read.
/// A key that may be absent stands in it exactly where the data have a value, but `delayed` and `release` always; a
/// list that may be absent is left out where it is empty. (own)
#[tactic(auto, unfolding(crate::specs::Tables::table_of, sdm_formats::specs::FaultLines::key_names))]
pub fn table_of(alloc: Global, journey: &JourneyData) -> Result<Table, NoMemory>
    ensures { IfOk result (λ t. table_view t ≡ table_of journey.now.0 journey.now.1) }
{
    let mut root = SectionWriter::new(alloc, Section::Root);
    root.integer(keys::ROOT_VERSION, VERSION)?;
    root.table(keys::ROOT_TRAIN, train_table(alloc, &journey.train)?)?;
    root.table(
        keys::ROOT_NATIONAL,
        national_table(alloc, &journey.national)?,
    )?;
    root.table(keys::ROOT_TRACK, track_table(alloc, &journey.track)?)?;
    root.table(
        keys::ROOT_AUTHORITY,
        authority_table(alloc, journey.authority)?,
    )?;
    Ok(root.into_table())
}

/// The train with its bands.
#[tactic(auto, unfolding(crate::specs::Tables::train_table, sdm_formats::specs::FaultLines::key_names))]
fn train_table(alloc: Global, train: &Train) -> Result<Table, NoMemory>
    ensures { IfOk result (λ t. table_view t ≡ train_table train.now) }
{
    let mut section = SectionWriter::new(alloc, Section::Train);
    section.integer(keys::TRAIN_LENGTH, train.length())?;
    section.integer(keys::TRAIN_MAX_SPEED, train.max_speed())?;
    section.integer_if_any(keys::TRAIN_ROTATING_MASS, train.rotating_mass())?;
    section.integer(
        keys::TRAIN_TRACTION_CUTOFF_TIME,
        train.traction_cutoff_time(),
    )?;
    section.flag(
        keys::TRAIN_TRACTION_CUTOFF_INTERFACE,
        train.traction_cutoff_interface(),
    )?;
    section.integer(keys::TRAIN_EMERGENCY_TIME, train.emergency_time())?;
    section.integer(keys::TRAIN_SERVICE_TIME, train.service_time())?;
    section.flag(keys::TRAIN_SERVICE_BRAKE, train.service_brake())?;
    section.put(keys::TRAIN_BAND, array_of(alloc, train.bands())?)?;
    Ok(section.into_table())
}

impl WriteEntry for Band {
    ghost written = { band_table };

    #[tactic(auto, unfolding(crate::specs::Tables::band_table, sdm_formats::specs::FaultLines::key_names))]
    fn table(&self, alloc: Global) -> Result<Table, NoMemory> {
        let mut section = SectionWriter::new(alloc, Section::Band);
        section.integer_if_any(keys::BAND_UPPER, self.upper)?;
        section.integer(keys::BAND_EMERGENCY, self.emergency)?;
        section.integer(keys::BAND_SERVICE, self.service)?;
        section.integer(keys::BAND_NORMAL, self.normal)?;
        section.integer(keys::BAND_KDRY, self.kdry)?;
        section.integer(keys::BAND_KWET, self.kwet)?;
        section.integer(keys::BAND_KN_UP, self.kn_up)?;
        section.integer(keys::BAND_KN_DOWN, self.kn_down)?;
        section.integer_if_any(keys::BAND_EMERGENCY_REDUCED, self.emergency_reduced)?;
        Ok(section.into_table())
    }
}

/// The national values.
#[tactic(auto, unfolding(crate::specs::Tables::national_table, sdm_formats::specs::FaultLines::key_names))]
fn national_table(alloc: Global, national: &National) -> Result<Table, NoMemory>
    ensures { IfOk result (λ t. table_view t ≡ national_table national.now) }
{
    let mut section = SectionWriter::new(alloc, Section::National);
    section.integer(keys::NATIONAL_AVADH, national.avadh())?;
    section.integer(keys::NATIONAL_ADHESION_MAX, national.adhesion_max())?;
    section.flag(keys::NATIONAL_GUIDANCE, national.guidance())?;
    section.flag(
        keys::NATIONAL_SERVICE_IN_TARGET,
        national.service_in_target(),
    )?;
    section.flag(keys::NATIONAL_EARLY_RELEASE, national.early_release())?;
    section.flag(
        keys::NATIONAL_INHIBIT_UNDER_READING,
        national.inhibit_under_reading(),
    )?;
    Ok(section.into_table())
}

/// The track with its lists.
#[tactic(auto, unfolding(crate::specs::Tables::track_table, sdm_formats::specs::FaultLines::key_names))]
fn track_table(alloc: Global, track: &Track) -> Result<Table, NoMemory>
    ensures { IfOk result (λ t. table_view t ≡ track_table track.now) }
{
    let mut section = SectionWriter::new(alloc, Section::Track);
    section.integer(keys::TRACK_LENGTH, i64::from(track.length_cm()))?;
    section.put_if_any(
        keys::TRACK_GRADIENT,
        array_if_any(alloc, track.gradients())?,
    )?;
    section.put(keys::TRACK_SPEED, array_of(alloc, track.speeds())?)?;
    section.put_if_any(keys::TRACK_ADHESION, array_if_any(alloc, track.areas())?)?;
    section.put_if_any(
        keys::TRACK_NO_SPECIAL,
        array_if_any(alloc, track.no_special_areas())?,
    )?;
    Ok(section.into_table())
}

impl WriteEntry for Gradient {
    ghost written = { gradient_table };

    #[tactic(auto, unfolding(crate::specs::Tables::gradient_table, sdm_formats::specs::FaultLines::key_names))]
    fn table(&self, alloc: Global) -> Result<Table, NoMemory> {
        let mut section = SectionWriter::new(alloc, Section::Gradient);
        section.integer(keys::GRADIENT_START, self.start)?;
        section.integer(keys::GRADIENT_GRAD, self.grad)?;
        Ok(section.into_table())
    }
}

impl WriteEntry for SpeedStep {
    ghost written = { speed_table };

    #[tactic(auto, unfolding(crate::specs::Tables::speed_table, sdm_formats::specs::FaultLines::key_names))]
    fn table(&self, alloc: Global) -> Result<Table, NoMemory> {
        let mut section = SectionWriter::new(alloc, Section::Speed);
        section.integer(keys::SPEED_START, self.start)?;
        section.integer(keys::SPEED_SPEED, self.speed)?;
        section.flag(keys::SPEED_DELAYED, self.delayed)?;
        Ok(section.into_table())
    }
}

impl WriteEntry for Area {
    ghost written = { area_table };

    #[tactic(auto, unfolding(crate::specs::Tables::area_table, sdm_formats::specs::FaultLines::key_names))]
    fn table(&self, alloc: Global) -> Result<Table, NoMemory> {
        let mut section = SectionWriter::new(alloc, Section::Adhesion);
        section.integer(keys::AREA_START, self.start)?;
        section.integer(keys::AREA_END, self.end)?;
        Ok(section.into_table())
    }
}

/// The authority, with the keys of its kind.
#[tactic(auto, unfolding(crate::specs::Tables::authority_table, sdm_formats::specs::FaultLines::key_names))]
fn authority_table(alloc: Global, authority: Authority) -> Result<Table, NoMemory>
    ensures { IfOk result (λ t. table_view t ≡ authority_table authority) }
{
    let mut section = SectionWriter::new(alloc, Section::Authority);
    match authority {
        Authority::Stop { eoa, svl, release } => {
            section.text(keys::AUTHORITY_KIND, "end")?;
            section.integer(keys::AUTHORITY_EOA, i64::from(eoa))?;
            section.integer(keys::AUTHORITY_SVL, i64::from(svl))?;
            section.integer(keys::AUTHORITY_RELEASE, i64::from(release))?;
        }
        Authority::Limit { loa, speed } => {
            section.text(keys::AUTHORITY_KIND, "limit")?;
            section.integer(keys::AUTHORITY_LOA, i64::from(loa))?;
            section.integer(keys::AUTHORITY_SPEED, i64::from(speed))?;
        }
    }
    Ok(section.into_table())
}

/// The table of data gives these data back: of accepted data, and so of all that were read. (own)
#[tactic(auto, using(crate::proofs::TablesBack::table_back, crate::proofs::TablesBack::read_again))]
pub fn law_of_tables()
    ensures accepted { (d : TrainAndTrack) (a : Authority) → train_fault (length d.train.bands) d.train ≡ None
        → national_fault d.national ≡ None → track_fault d.track ≡ None → IsAuthorityInRange a
        → data_of (table_of d a) ≡ Ok (d, a) }
    ensures read { (members : Members) (d : TrainAndTrack) (a : Authority) → data_of members ≡ Ok (d, a)
        → data_of (table_of d a) ≡ Ok (d, a) }
{}
