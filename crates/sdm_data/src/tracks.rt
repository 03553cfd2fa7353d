//! The section `track` with its lists: gradients (SUBSET-026-3 3.13.4), the static speed profile (3.11.3), areas of
//! reduced adhesion (3.12), and areas in which the special brake is not used (own form).

ghost use Rattle.std.specs.Prelude.{◌≡◌, ◌≢◌, IfErr, IfOk, Ok, Err, None, option_map, pos};
ghost use Rattle.std.specs.Result.{result_err};
ghost use Rattle.toml.specs.View.{table_view};
ghost use Rattle.sdm_rules.specs.Ranges.{length_fault, track_fault};
ghost use Rattle.sdm_data.specs.Sections.{area_in, gradient_in, speed_in, track_in};
ghost use Rattle.sdm_data.specs.Given.{given_track};

use crate::lists::{ReadEntry, entries};
use crate::section_tables::SectionTable;
use crate::versions::{Version, in_tenths};
use sdm_formats::DataFault;
use sdm_rules::{Area, Gradient, Section, SpeedStep, keys};
use sdm_track::Track;
use std::alloc::Global;
use toml::Table;

/// A track as it is given, with its length in cm. (own)
#[derive(Drop)]
pub struct GivenTrack {
    pub length: i64,
    pub gradients: Vec<Gradient>,
    pub speeds: Vec<SpeedStep>,
    pub areas: Vec<Area>,
    pub no_special: Vec<Area>,
}

impl ReadEntry for Gradient {
    ghost entry_in = { λ list. gradient_in };

    #[tactic(auto, unfolding(crate::specs::Sections::gradient_in))]
    fn read(
        _list: Section,
        version: Version,
        index: u32,
        table: &Table,
    ) -> Result<Gradient, DataFault> {
        let gradient = SectionTable::new(table, Section::Gradient, index);
        gradient.known_in(version)?;
        Ok(Gradient {
            start: gradient.integer(keys::GRADIENT_START)?,
            grad: in_tenths(version, gradient.integer(keys::GRADIENT_GRAD)?),
        })
    }
}

impl ReadEntry for SpeedStep {
    ghost entry_in = { λ list. speed_in };

    #[tactic(auto, unfolding(crate::specs::Sections::speed_in))]
    fn read(
        _list: Section,
        version: Version,
        index: u32,
        table: &Table,
    ) -> Result<SpeedStep, DataFault> {
        let speed = SectionTable::new(table, Section::Speed, index);
        speed.known_in(version)?;
        Ok(SpeedStep {
            start: speed.integer(keys::SPEED_START)?,
            speed: speed.integer(keys::SPEED_SPEED)?,
            delayed: speed.flag_if_any(keys::SPEED_DELAYED)?.unwrap_or(true),
        })
    }
}

impl ReadEntry for Area {
    ghost entry_in = { area_in };

    #[tactic(auto, unfolding(crate::specs::Sections::area_in))]
    fn read(list: Section, version: Version, index: u32, table: &Table) -> Result<Area, DataFault> {
        let area = SectionTable::new(table, list, index);
        area.known_in(version)?;
        Ok(Area {
            start: area.integer(keys::AREA_START)?,
            end: area.integer(keys::AREA_END)?,
        })
    }
}

/// The track that a table holds, or the first rule that it breaks, unless memory was refused first. (own)
#[tactic(auto, unfolding(crate::specs::Sections::track_in))]
pub fn track_in(alloc: Global, version: Version, table: &Table) -> Result<GivenTrack, DataFault>
    ensures track { IfOk result (λ given. track_in version (table_view table.now) ≡ Ok (given_track given)) }
    ensures refused { IfErr result
        (λ fault. fault ≢ DataFault.Memory → track_in version (table_view table.now) ≡ Err fault) }
{
    let track = SectionTable::new(table, Section::Track, 0);
    track.known_in(version)?;
    let length = track.integer(keys::TRACK_LENGTH)?;
    let gradients = track.tables_if_any(keys::TRACK_GRADIENT)?.unwrap_or(&[]);
    let speeds = track.tables(keys::TRACK_SPEED)?;
    let areas = track.tables_if_any(keys::TRACK_ADHESION)?.unwrap_or(&[]);
    let no_special = track.tables_if_any(keys::TRACK_NO_SPECIAL)?.unwrap_or(&[]);
    Ok(GivenTrack {
        length,
        gradients: entries(alloc, Section::Gradient, version, gradients)?,
        speeds: entries(alloc, Section::Speed, version, speeds)?,
        areas: entries(alloc, Section::Adhesion, version, areas)?,
        no_special: entries(alloc, Section::NoSpecial, version, no_special)?,
    })
}

impl GivenTrack {
    /// The track, or the first rule that it breaks. (own)
    pub fn accepted(self) -> Result<Track, DataFault>
        ensures fault { result_err result ≡ option_map DataFault.Track (track_fault (given_track self)) }
        ensures kept { IfOk result (λ track. track ≡ given_track self) }
    {
        let length_cm = self.length_cm();
        match Track::new(
            length_cm,
            self.gradients,
            self.speeds,
            self.areas,
            self.no_special,
        ) {
            Ok(track) => Ok(track),
            Err(fault) => Err(DataFault::Track(fault)),
        }
    }

    /// The length as it is handed on: 0, which is refused as well, where no u32 holds it.
    fn length_cm(&self) -> u32
        ensures refused { length_fault (pos result) ≡ length_fault self.now.length }
        ensures kept { length_fault self.now.length ≡ None → pos result ≡ self.now.length }
    {
        u32::try_from(self.length).unwrap_or(0)
    }
}
