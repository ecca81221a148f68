//! An open document.
ghost use Rattle.std.specs.Prelude.{◌≡◌, ◌≤◌, IfOk};
ghost use Rattle.std.specs.Str.{IsCharBoundary};
ghost use Rattle.typst_lines.specs.UnicodeTables.{unicode_classes};
ghost use Rattle.typst_parser.specs.Boundaries.{IsBoundary};
ghost use Rattle.typst_parser.specs.Headline.{Headline, edited};
ghost use Rattle.typst_positions.specs.Positions.{byte_at, position_of};
ghost use Rattle.typst_protocol.specs.Parameters.{edit_in};
ghost use Rattle.typst_document.specs.Document as spec;
ghost use Rattle.typst_document.specs.Document.{IsTextAt, all_bytes};

use std::alloc::Global;
use std::marker::Model;
use std::ops::Range;
use typst_parser::{Boundary, Source, SourceError, SyntaxNode, UnicodeClasses};
use typst_positions::{Encoding, Position, Positions};
use typst_protocol::values::Place;
use typst_protocol::{Change, Refusal};

/// The text of an open document with its tree, and its lines as the protocol has them.
#[derive(Drop)]
pub struct Document {
    source: Source<UnicodeClasses>,
    positions: Positions,
    encoding: Encoding,
}

impl Model for Document {
    ghost use Rattle.typst_document.specs.Document.{IsKept, Opened, opened_code};

    ghost Value = { Opened };

    ghost coded = { opened_code };

    ghost view = { λ a. record { source = a.source; encoding = a.encoding } };

    ghost invariant = { λ a. IsKept a.source a.positions };
}

/// A source is refused where memory is, or where it has more nodes than there are numbers.
fn refused(_error: SourceError) -> Refusal {
    Refusal::OutOfMemory
}

impl Document {
    /// The document of a text. Columns are counted in the units of `encoding`.
    pub fn new(alloc: Global, text: &str, encoding: Encoding) -> Result<Document, Refusal>
        ensures text { IfOk result (λ document. document.source.text ≡ text.now) }
        ensures encoding { IfOk result (λ document. document.encoding ≡ encoding) }
        ensures headline { IfOk result (λ document. Headline unicode_classes document.source) }
    {
        let positions = Positions::new(alloc, text)?;
        let text = String::from_str(alloc, text)?;
        let source = Source::detached(alloc, text, UnicodeClasses).map_err(refused)?;
        Ok(Document {
            source,
            positions,
            encoding,
        })
    }

    /// The text.
    pub fn text(&self) -> &str
        ensures { result.now ≡ self.now.source.text }
    {
        self.source.text()
    }

    /// The tree of the text.
    pub fn root(&self) -> &SyntaxNode
        ensures value { result.now ≡ self.now.source.root }
        ensures headline { Headline unicode_classes self.now.source }
    {
        self.source.root()
    }

    /// A place between the root's children: before those that the last change read again, or before all.
    pub fn boundary(&self) -> Boundary
        ensures { IsBoundary self.now.source.root result }
    {
        self.source.boundary()
    }

    /// In what columns are counted.
    pub fn encoding(&self) -> Encoding
        ensures { result ≡ self.now.encoding }
    {
        self.encoding
    }

    /// The document after a change, and the bytes of its text that were read again, if that is known. It is
    /// gone where the change is refused.
    pub fn changed(
        self,
        alloc: Global,
        change: Change<'_>,
    ) -> Result<(Document, Option<Range<usize>>), Refusal>
        ensures text { IfOk result (λ kept. kept.0.source.text ≡ spec.changed self.encoding self.source.text (edit_in change.entry)) }
        ensures encoding { IfOk result (λ kept. kept.0.encoding ≡ self.encoding) }
        ensures headline { IfOk result (λ kept. Headline unicode_classes kept.0.source) }
        ensures read { IfOk result (λ kept. spec.IsReadAgain self kept.0 kept.1) }
    {
        match change {
            Change::Whole(text) => Ok((self.replaced(alloc, text)?, None)),
            Change::Ranged(stretch, text) => {
                let start = self.byte_of(stretch.start);
                let end = self.byte_of(stretch.end);
                if start <= end {
                    self.edited(start..end, text)
                } else {
                    self.edited(end..start, text)
                }
            }
        }
    }

    /// The document with another text.
    fn replaced(self, alloc: Global, text: &str) -> Result<Document, Refusal>
        ensures text { IfOk result (λ document. document.source.text ≡ text.now) }
        ensures encoding { IfOk result (λ document. document.encoding ≡ self.encoding) }
        ensures headline { IfOk result (λ document. Headline unicode_classes document.source) }
    {
        let Document {
            mut source,
            positions: _,
            encoding,
        } = self;
        let positions = Positions::new(alloc, text)?;
        source.replace(text).map_err(refused)?;
        Ok(Document {
            source,
            positions,
            encoding,
        })
    }

    /// The document with a text in the place of a range of bytes, and the bytes that were read again.
    fn edited(
        self,
        replace: Range<usize>,
        with: &str,
    ) -> Result<(Document, Option<Range<usize>>), Refusal>
        requires start { IsCharBoundary self.source.text replace.start }
        requires end { IsCharBoundary self.source.text replace.end }
        requires ordered { replace.start ≤ replace.end }
        ensures text { IfOk result (λ kept. kept.0.source.text ≡ edited self.source.text replace with.now) }
        ensures encoding { IfOk result (λ kept. kept.0.encoding ≡ self.encoding) }
        ensures headline { IfOk result (λ kept. Headline unicode_classes kept.0.source) }
        ensures read { IfOk result (λ kept. spec.IsReadAgain self kept.0 kept.1) }
    {
        let Document {
            mut source,
            mut positions,
            encoding,
        } = self;
        let Range { start, end } = replace;
        let _was = source.text();
        let Ok(read) = source.edit(start..end, with) else {
            return Err(Refusal::OutOfMemory);
        };
        positions.edit(source.text(), start..end, with.len())?;
        let document = Document {
            source,
            positions,
            encoding,
        };
        Ok((document, Some(read)))
    }

    /// The byte of a position.
    pub fn byte_of(&self, position: Position) -> usize
        ensures value { result ≡ byte_at self.now.encoding self.now.source.text position }
        ensures boundary { IsCharBoundary self.now.source.text result }
    {
        let text = self.source.text();
        self.positions.to_byte(text, self.encoding, position)
    }

    /// The place of a byte, or of the start of the character that it is in.
    pub fn place_of(&self, byte: usize) -> Place
        ensures { (record { line = result.line; column = result.character }) ≡ position_of self.now.encoding self.now.source.text byte }
    {
        let position = self
            .positions
            .to_position(self.source.text(), self.encoding, byte);
        Place {
            line: position.line,
            character: position.column,
        }
    }

    /// All bytes of the text.
    pub fn whole(&self) -> Range<usize>
        ensures { result ≡ all_bytes self.now }
    {
        0..self.text().len()
    }

    /// The text of some bytes, empty where they don't begin and end between characters.
    pub fn text_at(&self, bytes: &Range<usize>) -> &str
        ensures { IsTextAt self.now.source.text bytes.now result.now }
    {
        self.text().get(bytes.start..bytes.end).unwrap_or("")
    }
}
