//! The text of version 2 of a journey's data.

ghost use Rattle.std.specs.Prelude.{◌≡◌, IfOk, Some, string_bytes};
ghost use Rattle.sdm_data.specs.Document.{document_of};
ghost use Rattle.sdm_data.specs.Tables.{table_of};
ghost use Rattle.sdm_data.specs.Texts.{document_text};

use crate::journeys::JourneyData;
use crate::tables::table_of;
use sdm_num::NoMemory;
use std::alloc::Global;

/// The text of the table of version 2 that holds these data, as `toml` prints it; it is a document, that table. There
/// is no date in it, so nothing but memory can be wanting. (own)
#[tactic(auto, using(crate::proofs::PlainTables::text_is, crate::proofs::PlainTables::not_deep))]
pub fn text_of(alloc: Global, journey: &JourneyData) -> Result<String, NoMemory>
    ensures text { IfOk result (λ text. string_bytes text
        ≡ document_text (table_of journey.now.0 journey.now.1)) }
    ensures document { IfOk result (λ text. document_of (string_bytes text)
        ≡ Some (table_of journey.now.0 journey.now.1)) }
{
    let table = table_of(alloc, journey)?;
    let Ok(text) = toml::table_to_string(alloc, &table) else {
        return Err(NoMemory);
    };
    let _ = text.as_str();
    Ok(text)
}
