//! What all open documents define.
ghost use Rattle.typst_protocol.specs.Parameters as parameters;
ghost use Rattle.typst_server.specs.Results.{OfDocuments, said_of};

use crate::documents::Documents;
use crate::outline::{name_of, number_of};
use std::alloc::{AllocError, Global};
use typst_document::{Document, Extents};
use typst_protocol::values::{FlatSymbol, Location};
use typst_protocol::{Params, Refusal, json_of};

/// What the open documents define by names that contain what is looked for, whatever the case of letters: all
/// where that is nothing. Documents whose text isn't known have none.
#[tactic(auto, using(crate::proofs::Responses::of_named, crate::proofs::Responses::of_unnamed))]
pub fn symbols(alloc: Global, documents: &Documents, params: Params<'_>) -> Result<String, Refusal>
    ensures { OfDocuments (parameters.query (parameters.seen params.entry)) (said_of result) }
{
    let query = params.query()?.to_lowercase(alloc)?;
    let mut written = Vec::new(alloc);
    for (uri, document) in &documents.all_known()? {
        add_symbols(alloc, &mut written, document, uri, query.as_str())?;
    }
    json_of(alloc, &written)
}

/// Adds those of one document.
fn add_symbols<'a>(
    alloc: Global,
    written: &mut Vec<FlatSymbol<'a>>,
    document: &'a Document,
    uri: &'a str,
    query: &str,
) -> Result<(), AllocError> {
    let mut extents = Extents::new(document);
    for symbol in &typst_features::symbols(alloc, document.root())? {
        let name = name_of(document, symbol);
        if name.to_lowercase(alloc)?.contains(query) {
            let range = extents.of(&symbol.range);
            written.push(FlatSymbol {
                name,
                kind: number_of(symbol.kind),
                location: Location { uri, range },
            })?;
        }
    }
    Ok(())
}
