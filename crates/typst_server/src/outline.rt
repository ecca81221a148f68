//! The outline of a document.

use std::alloc::{AllocError, Global};
use typst_document::{Document, Extents};
use typst_features::SymbolKind;
use typst_protocol::values::{FlatSymbol, Location, Symbol};
use typst_protocol::{Refusal, json_of};

/// How deep a symbol stands in an outline at most, counted from 0: what is deeper stands there.
const MOST_LEVELS: usize = 32;

/// What stands for a name that is empty.
const NO_NAME: &str = "(untitled)";

/// The outline of a document, as a tree where the client takes one and else as a list.
pub fn symbols(
    alloc: Global,
    document: &Document,
    uri: &str,
    as_tree: bool,
) -> Result<String, Refusal> {
    let found = typst_features::symbols(alloc, document.root())?;
    if as_tree {
        json_of(alloc, &tree_of(alloc, document, &found)?)
    } else {
        json_of(alloc, &list_of(alloc, document, uri, &found)?)
    }
}

fn list_of<'a>(
    alloc: Global,
    document: &'a Document,
    uri: &'a str,
    found: &[typst_features::Symbol],
) -> Result<Vec<FlatSymbol<'a>>, AllocError> {
    let mut extents = Extents::new(document);
    let mut written = Vec::new(alloc);
    for symbol in found {
        let range = extents.of(&symbol.range);
        written.push(FlatSymbol {
            name: name_of(document, symbol),
            kind: number_of(symbol.kind),
            location: Location { uri, range },
        })?;
    }
    Ok(written)
}

fn tree_of<'a>(
    alloc: Global,
    document: &'a Document,
    found: &[typst_features::Symbol],
) -> Result<Vec<Symbol<'a>>, AllocError> {
    let (mut ranges, mut names) = (Extents::new(document), Extents::new(document));
    let mut outline = Outline {
        roots: Vec::new(alloc),
        open: Vec::new(alloc),
    };
    for symbol in found {
        outline.close_to(symbol.depth.min(MOST_LEVELS))?;
        outline.open.push(Symbol {
            name: name_of(document, symbol),
            kind: number_of(symbol.kind),
            range: ranges.of(&symbol.range),
            selection_range: names.of(&symbol.name),
            children: Vec::new(alloc),
        })?;
    }
    outline.close_to(0)?;
    Ok(outline.roots)
}

/// The name of a symbol, which is never empty.
pub fn name_of<'a>(document: &'a Document, symbol: &typst_features::Symbol) -> &'a str {
    let name = document.text_at(&symbol.name).trim();
    if name.is_empty() { NO_NAME } else { name }
}

/// The protocol's number of a kind of symbol.
pub fn number_of(kind: SymbolKind) -> u8 {
    match kind {
        SymbolKind::Heading => 3,
        SymbolKind::Function => 12,
        SymbolKind::Variable => 13,
        SymbolKind::Label => 20,
    }
}

/// An outline that is being made, from symbols each of which stands before those below it.
#[derive(Drop)]
struct Outline<'a> {
    roots: Vec<Symbol<'a>>,
    /// The symbols to which more may be added, each below the one before it.
    open: Vec<Symbol<'a>>,
}

impl Outline<'_> {
    /// Leaves so many symbols open.
    fn close_to(&mut self, depth: usize) -> Result<(), AllocError> {
        for _ in depth..self.open.len() {
            let Some(symbol) = self.open.pop() else {
                return Ok(());
            };
            match self.open.last_mut() {
                Some(parent) => parent.children.push(symbol)?,
                None => self.roots.push(symbol)?,
            }
        }
        Ok(())
    }
}
