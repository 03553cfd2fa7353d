//! The TOML document of the data part.

ghost use Rattle.std.specs.Prelude.{◌≡◌, IfOk, IsErrOf, None, Some};
ghost use Rattle.toml.specs.View.{table_view};
ghost use Rattle.sdm_data.specs.Document.{document_of};

use std::alloc::Global;
use thiserror::Error;
use toml::Table;

/// Why bytes are not read as a document. (own)
#[derive(Clone, Copy, Debug, PartialEq, Eq, Error)]
pub enum DocumentFault {
    /// They are not UTF-8, or no TOML 1.1 document.
    #[error("not TOML")]
    NotToml,
    #[error("no memory")]
    Memory,
}

/// The root table of the TOML document that these bytes are. NotToml exactly where they are none, unless memory was
/// refused first. (own)
#[tactic(auto, using(crate::proofs::DocumentLaws::document_some, crate::proofs::DocumentLaws::document_none))]
pub fn read_document(alloc: Global, bytes: &[u8]) -> Result<Table, DocumentFault>
    ensures document { IfOk result (λ table. document_of bytes.now ≡ Some (table_view table)) }
    ensures not_toml { IsErrOf result DocumentFault.NotToml → document_of bytes.now ≡ None }
{
    toml::table_from_slice(alloc, bytes).map_err(|error| {
        if error.is_memory() {
            DocumentFault::Memory
        } else {
            DocumentFault::NotToml
        }
    })
}
