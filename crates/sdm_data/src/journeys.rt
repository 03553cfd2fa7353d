//! The data of a journey: the sections one after the other, and then the rules of what they hold.

ghost use Rattle.std.specs.Prelude.{◌≡◌, ◌≢◌, IfErr, IfOk, Ok, Err};
ghost use Rattle.toml.specs.View.{table_view};
ghost use Rattle.sdm_data.specs.Journey.{data_of};

use crate::authorities::authority_in;
use crate::national_values::national_in;
use crate::roots::root_in;
use crate::tracks::track_in;
use crate::trains::train_in;
use sdm_formats::DataFault;
use sdm_national::National;
use sdm_rules::Authority;
use sdm_track::Track;
use sdm_train::Train;
use std::alloc::Global;
use std::marker::Model;
use toml::Table;

/// What is known of a journey before it begins: the train, the national values, the track, and the first authority.
/// (own)
#[derive(Debug, Drop)]
pub struct JourneyData {
    pub train: Train,
    pub national: National,
    pub track: Track,
    pub authority: Authority,
}

impl Model for JourneyData {
    ghost use Rattle.sdm_rules.specs.declared.authorities.Authority.{Authority};
    ghost use Rattle.sdm_rules.specs.Data.{TrainAndTrack};

    ghost Value = { TrainAndTrack × Authority };

    ghost view = { λ j. (record { train = j.train; national = j.national; track = j.track }, j.authority) };
}

/// The data that a document holds. Else the first rule that it breaks, unless memory was refused first; the rules are
/// tested in this order (own):
///
/// - section by section: root, train, each band, national values, track, each gradient, each speed, each area of
///   reduced adhesion, each area in which the special brake is not used, authority. In a section UnknownKey comes
///   first, and then key by key Missing and WrongKind. In the authority `kind` comes first, since the other keys depend
///   on it. Value comes after WrongKind of `version`, of `kind` and of the authority's numbers.
/// - Train, and then National, and then Track: what `Train::new`, `National::new` and `Track::new` refuse.
#[tactic(auto, unfolding(crate::specs::Journey::data_of))]
pub fn data_of(alloc: Global, table: &Table) -> Result<JourneyData, DataFault>
    ensures data { IfOk result (λ j. data_of (table_view table.now) ≡ Ok j) }
    ensures refused { IfErr result (λ fault. fault ≢ DataFault.Memory → data_of (table_view table.now) ≡ Err fault) }
{
    let root = root_in(table)?;
    let train = train_in(alloc, root.version, root.train)?;
    let national = national_in(root.version, root.national)?;
    let track = track_in(alloc, root.version, root.track)?;
    let authority = authority_in(root.authority)?;
    Ok(JourneyData {
        train: train.accepted()?,
        national: National::new(national).map_err(DataFault::National)?,
        track: track.accepted()?,
        authority,
    })
}
