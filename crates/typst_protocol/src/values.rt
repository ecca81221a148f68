//! The values of the protocol, as they are written.
//!
//! What those write that have a `Described` here is stated by it; of those with a derived writer no clause says it.

ghost use Rattle.std.specs.Prelude.{OnOk, option_map};
ghost use Rattle.typst_protocol.specs.Written as spec;

use serde::{Described, Serialize, Serializer};

/// A place between two characters: a line and a column, from 0.
#[derive(Debug, Clone, Copy)]
pub struct Place {
    pub line: usize,
    pub character: usize,
}

impl Described for Place {
    ghost writes = { λ place. spec.WritesPlace place };
}

impl Serialize for Place {
    fn serialize<S: Serializer>(&self, out: &mut S) -> Result<(), S::Error> {
        out.begin_map(Some(2))?;
        out.key("line")?;
        self.line.serialize(out)?;
        out.key("character")?;
        self.character.serialize(out)?;
        out.end_map()
    }
}

/// What stands between two places.
#[derive(Debug, Clone, Copy)]
pub struct Extent {
    pub start: Place,
    pub end: Place,
}

impl Described for Extent {
    ghost writes = { λ extent. spec.WritesExtent extent };
}

impl Serialize for Extent {
    fn serialize<S: Serializer>(&self, out: &mut S) -> Result<(), S::Error> {
        out.begin_map(Some(2))?;
        out.key("start")?;
        self.start.serialize(out)?;
        out.key("end")?;
        self.end.serialize(out)?;
        out.end_map()
    }
}

/// An error or a warning.
#[derive(Debug, Drop)]
pub struct Problem {
    pub range: Extent,
    pub severity: u8,
    pub source: &'static str,
    pub message: String,
}

impl Described for Problem {
    ghost writes = { λ problem. spec.WritesProblem problem };
}

impl Serialize for Problem {
    fn serialize<S: Serializer>(&self, out: &mut S) -> Result<(), S::Error> {
        out.begin_map(Some(4))?;
        out.key("range")?;
        self.range.serialize(out)?;
        out.key("severity")?;
        self.severity.serialize(out)?;
        out.key("source")?;
        self.source.serialize(out)?;
        out.key("message")?;
        self.message.serialize(out)?;
        out.end_map()
    }
}

/// All errors and warnings of a document.
#[derive(Debug, Drop)]
pub struct Problems<'a> {
    pub uri: &'a str,
    pub version: Option<i64>,
    pub diagnostics: Vec<Problem>,
}

impl<'a> Described for Problems<'a> {
    ghost writes = { λ problems. spec.WritesProblems problems };
}

impl<'a> Serialize for Problems<'a> {
    fn serialize<S: Serializer>(&self, out: &mut S) -> Result<(), S::Error> {
        out.begin_map(None)?;
        out.key("uri")?;
        self.uri.serialize(out)?;
        write_version(self.version, out)?;
        out.key("diagnostics")?;
        self.diagnostics.serialize(out)?;
        out.end_map()
    }
}

/// Writes the version of a document as a member, if there is one.
fn write_version<S: Serializer>(version: Option<i64>, out: &mut S) -> Result<(), S::Error>
    ensures { OnOk result (spec.WritesVersion version (S.written out.old) (S.written out.new)) }
{
    let Some(version) = version else {
        return Ok(());
    };
    out.key("version")?;
    version.serialize(out)
}

/// Something that a document defines, with what it holds.
#[derive(Debug, Drop, Serialize)]
#[serde(rename_all = "camelCase")]
pub struct Symbol<'a> {
    pub name: &'a str,
    pub kind: u8,
    pub range: Extent,
    pub selection_range: Extent,
    pub children: Vec<Symbol<'a>>,
}

/// Something that a document defines, and where.
#[derive(Debug, Drop, Serialize)]
pub struct FlatSymbol<'a> {
    pub name: &'a str,
    pub kind: u8,
    pub location: Location<'a>,
}

/// A stretch of a document.
#[derive(Debug, Drop)]
pub struct Location<'a> {
    pub uri: &'a str,
    pub range: Extent,
}

impl<'a> Described for Location<'a> {
    ghost writes = { λ location. spec.WritesLocation location };
}

impl<'a> Serialize for Location<'a> {
    fn serialize<S: Serializer>(&self, out: &mut S) -> Result<(), S::Error> {
        out.begin_map(Some(2))?;
        out.key("uri")?;
        self.uri.serialize(out)?;
        out.key("range")?;
        self.range.serialize(out)?;
        out.end_map()
    }
}

/// Lines that can be folded.
#[derive(Debug, Drop, Serialize)]
#[serde(rename_all = "camelCase")]
pub struct Folding {
    pub start_line: usize,
    #[serde(skip_serializing_if = "Option::is_none")]
    pub start_character: Option<usize>,
    pub end_line: usize,
    #[serde(skip_serializing_if = "Option::is_none")]
    pub end_character: Option<usize>,
    #[serde(skip_serializing_if = "Option::is_none")]
    pub kind: Option<&'static str>,
}

/// A stretch to select, and the one around it.
#[derive(Debug, Drop, Serialize)]
pub struct Selection {
    pub range: Extent,
    #[serde(skip_serializing_if = "Option::is_none")]
    pub parent: Option<Box<Selection>>,
}

/// A stretch that is shown like the one at the cursor.
#[derive(Debug, Drop)]
pub struct Highlight {
    pub range: Extent,
}

impl Described for Highlight {
    ghost writes = { λ highlight. spec.WritesHighlight highlight };
}

impl Serialize for Highlight {
    fn serialize<S: Serializer>(&self, out: &mut S) -> Result<(), S::Error> {
        out.begin_map(Some(1))?;
        out.key("range")?;
        self.range.serialize(out)?;
        out.end_map()
    }
}

/// A text to put in the place of what stands between two places.
#[derive(Debug, Drop)]
pub struct TextEdit<'a> {
    pub range: Extent,
    pub new_text: &'a str,
}

impl<'a> Described for TextEdit<'a> {
    ghost writes = { λ edit. spec.WritesTextEdit edit };
}

impl<'a> Serialize for TextEdit<'a> {
    fn serialize<S: Serializer>(&self, out: &mut S) -> Result<(), S::Error> {
        out.begin_map(Some(2))?;
        out.key("range")?;
        self.range.serialize(out)?;
        out.key("newText")?;
        self.new_text.serialize(out)?;
        out.end_map()
    }
}

/// The edits of one document: they stand under its address.
#[derive(Debug, Drop)]
pub struct Changes<'a> {
    pub uri: &'a str,
    pub edits: Vec<TextEdit<'a>>,
}

impl<'a> Described for Changes<'a> {
    ghost writes = { λ changes. spec.WritesChanges changes };
}

impl<'a> Serialize for Changes<'a> {
    fn serialize<S: Serializer>(&self, out: &mut S) -> Result<(), S::Error> {
        out.begin_map(Some(1))?;
        out.begin_key()?;
        self.uri.serialize(out)?;
        out.end_key()?;
        self.edits.serialize(out)?;
        out.end_map()
    }
}

/// Edits of documents: here always of one.
#[derive(Debug, Drop)]
pub struct WorkspaceEdit<'a> {
    pub changes: Changes<'a>,
}

impl<'a> Described for WorkspaceEdit<'a> {
    ghost writes = { λ edit. spec.WritesWorkspaceEdit edit };
}

impl<'a> Serialize for WorkspaceEdit<'a> {
    fn serialize<S: Serializer>(&self, out: &mut S) -> Result<(), S::Error> {
        out.begin_map(Some(1))?;
        out.key("changes")?;
        self.changes.serialize(out)?;
        out.end_map()
    }
}

/// A name that can be renamed, and what stands there now.
#[derive(Debug, Drop, Serialize)]
pub struct Renamable<'a> {
    pub range: Extent,
    pub placeholder: &'a str,
}

/// A text to show, with how it is meant: `plaintext` or `markdown`.
#[derive(Debug, Drop, Serialize)]
pub struct MarkupContent<'a> {
    pub kind: &'static str,
    pub value: &'a str,
}

/// What is shown of a stretch.
#[derive(Debug, Drop, Serialize)]
pub struct Hover<'a> {
    pub contents: MarkupContent<'a>,
    pub range: Extent,
}

/// What a word may become.
#[derive(Debug, Drop, Serialize)]
#[serde(rename_all = "camelCase")]
pub struct CompletionList<'a> {
    /// Whether it is to be asked for again when more is typed.
    pub is_incomplete: bool,
    pub items: Vec<CompletionItem<'a>>,
}

/// One of them, with the protocol's number of its kind.
#[derive(Debug, Drop, Serialize)]
#[serde(rename_all = "camelCase")]
pub struct CompletionItem<'a> {
    pub label: &'a str,
    pub kind: u8,
    pub text_edit: TextEdit<'a>,
}

/// A stretch that leads elsewhere, and the address of that.
#[derive(Debug, Drop, Serialize)]
pub struct DocumentLink {
    pub range: Extent,
    pub target: String,
}

/// What can be done, with its kind, which is `quickfix` of what removes a problem.
#[derive(Debug, Drop, Serialize)]
pub struct CodeAction<'a> {
    pub title: String,
    pub kind: &'static str,
    pub edit: WorkspaceEdit<'a>,
}

/// All errors and warnings of a document, to one who asked. The kind of such a report is `full`.
#[derive(Debug, Drop)]
pub struct Report {
    pub kind: &'static str,
    pub items: Vec<Problem>,
}

impl Described for Report {
    ghost writes = { λ report. spec.WritesReport report };
}

impl Serialize for Report {
    fn serialize<S: Serializer>(&self, out: &mut S) -> Result<(), S::Error> {
        out.begin_map(Some(2))?;
        out.key("kind")?;
        self.kind.serialize(out)?;
        out.key("items")?;
        self.items.serialize(out)?;
        out.end_map()
    }
}

/// The tokens of a document, five numbers each.
#[derive(Debug, Drop)]
pub struct Tokens<'a> {
    pub result_id: Option<&'a str>,
    pub data: &'a [u32],
}

impl<'a> Described for Tokens<'a> {
    ghost writes = { λ tokens. spec.WritesTokens tokens };
}

impl<'a> Serialize for Tokens<'a> {
    fn serialize<S: Serializer>(&self, out: &mut S) -> Result<(), S::Error> {
        out.begin_map(None)?;
        write_result_id(self.result_id, out)?;
        out.key("data")?;
        self.data.serialize(out)?;
        out.end_map()
    }
}

/// Writes the name under which tokens are sent as a member, if there is one.
fn write_result_id<S: Serializer>(result_id: Option<&str>, out: &mut S) -> Result<(), S::Error>
    ensures { OnOk result (spec.WritesResultId (option_map (λ id. id.now) result_id.entry) (S.written out.old) (S.written out.new)) }
{
    let Some(result_id) = result_id else {
        return Ok(());
    };
    out.key("resultId")?;
    result_id.serialize(out)
}

/// What has changed since other tokens were sent.
#[derive(Debug, Drop)]
pub struct TokenChanges<'a> {
    pub result_id: &'a str,
    pub edits: Vec<TokenEdit<'a>>,
}

impl<'a> Described for TokenChanges<'a> {
    ghost writes = { λ changes. spec.WritesTokenChanges changes };
}

impl<'a> Serialize for TokenChanges<'a> {
    fn serialize<S: Serializer>(&self, out: &mut S) -> Result<(), S::Error> {
        out.begin_map(Some(2))?;
        out.key("resultId")?;
        self.result_id.serialize(out)?;
        out.key("edits")?;
        self.edits.serialize(out)?;
        out.end_map()
    }
}

/// Numbers to put in the place of others.
#[derive(Debug, Drop)]
pub struct TokenEdit<'a> {
    pub start: usize,
    pub delete_count: usize,
    pub data: &'a [u32],
}

impl<'a> Described for TokenEdit<'a> {
    ghost writes = { λ edit. spec.WritesTokenEdit edit };
}

impl<'a> Serialize for TokenEdit<'a> {
    fn serialize<S: Serializer>(&self, out: &mut S) -> Result<(), S::Error> {
        out.begin_map(Some(3))?;
        out.key("start")?;
        self.start.serialize(out)?;
        out.key("deleteCount")?;
        self.delete_count.serialize(out)?;
        out.key("data")?;
        self.data.serialize(out)?;
        out.end_map()
    }
}
