//! What the parameters of requests and notifications say.

ghost use Rattle.std.specs.Prelude.{◌≡◌, option_and_then, option_map};
ghost use Rattle.serde_json.specs.Find.{as_number};
ghost use Rattle.serde_json.specs.View.{items_view, view};
ghost use Rattle.typst_protocol.specs.Parameters as spec;
ghost use Rattle.typst_protocol.specs.Parameters.{Finds, seen};

use crate::refusal::Refusal;
use serde_json::Value;
use std::num::{
    nearest_i64_to_f64, nearest_u64_to_f64, saturating_f64_to_i32, saturating_f64_to_u32,
};
use typst_positions::{Encoding, Position};

/// The parameters of a message, which may have none.
#[derive(Debug, Clone, Copy)]
pub struct Params<'a> {
    /// Their value, if they have one.
    pub value: Option<&'a Value>,
}

/// What stands between two positions, whichever of them comes first.
#[derive(Debug, Clone, Copy, PartialEq, Eq)]
pub struct Stretch {
    /// One end.
    pub start: Position,
    /// The other one.
    pub end: Position,
}

/// A change of a document's text.
#[derive(Debug, Clone, Copy)]
pub enum Change<'a> {
    /// The whole text is this one now.
    Whole(&'a str),
    /// A text takes the place of what stands between two positions.
    Ranged(Stretch, &'a str),
}

impl<'a> Params<'a> {
    /// The parameters of a message.
    pub fn of(message: &'a Value) -> Params<'a>
        ensures { seen result ≡ spec.params (view message.now) }
    {
        Params {
            value: message.get("params"),
        }
    }

    /// A member.
    fn get(self, name: &str) -> Option<&'a Value>
        ensures { option_map (λ v. view v.now) result ≡ spec.member name.now (seen self.entry) }
    {
        self.value?.get(name)
    }

    /// The document that they speak of.
    fn document(self) -> Option<&'a Value>
        ensures { option_map (λ v. view v.now) result ≡ spec.document (seen self.entry) }
    {
        self.get("textDocument")
    }

    /// The address of the document.
    pub fn uri(self) -> Result<&'a str, Refusal>
        ensures { Finds (λ uri. uri.now) (spec.uri (seen self.entry)) result }
    {
        let uri = self.document().and_then(|document| document.get("uri"));
        uri.and_then(Value::as_str).ok_or(Refusal::BadParameters)
    }

    /// The version of the document.
    pub fn version(self) -> Option<i64>
        ensures { result ≡ spec.version (seen self.entry) }
    {
        integer(self.document()?.get("version")?)
    }

    /// The whole text of the document.
    pub fn text(self) -> Result<&'a str, Refusal>
        ensures { Finds (λ text. text.now) (spec.whole_text (seen self.entry)) result }
    {
        let text = self.document().and_then(|document| document.get("text"));
        text.and_then(Value::as_str).ok_or(Refusal::BadParameters)
    }

    /// The changes of the document's text. Each is to be read by `Change::of`.
    pub fn changes(self) -> Option<&'a [Value]>
        ensures { option_map (λ changes. items_view changes.now) result ≡ spec.changes (seen self.entry) }
    {
        Some(self.get("contentChanges")?.as_array()?.as_slice())
    }

    /// The position.
    pub fn position(self) -> Result<Position, Refusal>
        ensures { Finds (λ position. position) (spec.position_in (seen self.entry)) result }
    {
        let position = self.get("position").and_then(position_of);
        position.ok_or(Refusal::BadParameters)
    }

    /// The positions. Each is to be read by `position_of`.
    pub fn positions(self) -> Result<&'a [Value], Refusal>
        ensures { Finds (λ positions. items_view positions.now) (spec.positions (seen self.entry)) result }
    {
        match self.get("positions").and_then(Value::as_array) {
            Some(positions) => Ok(positions.as_slice()),
            None => Err(Refusal::BadParameters),
        }
    }

    /// The stretch.
    pub fn stretch(self) -> Result<Stretch, Refusal>
        ensures { Finds (λ stretch. stretch) (spec.stretch_in (seen self.entry)) result }
    {
        let stretch = self.get("range").and_then(Stretch::of);
        stretch.ok_or(Refusal::BadParameters)
    }

    /// The name of the tokens from which changes are wanted.
    pub fn previous_tokens(self) -> Result<&'a str, Refusal>
        ensures { Finds (λ name. name.now) (spec.previous_tokens (seen self.entry)) result }
    {
        let name = self.get("previousResultId").and_then(Value::as_str);
        name.ok_or(Refusal::BadParameters)
    }

    /// The name to put in the place of another one.
    pub fn new_name(self) -> Result<&'a str, Refusal>
        ensures { Finds (λ name. name.now) (spec.new_name (seen self.entry)) result }
    {
        let name = self.get("newName").and_then(Value::as_str);
        name.ok_or(Refusal::BadParameters)
    }

    /// The character that was typed.
    pub fn typed(self) -> Result<&'a str, Refusal>
        ensures { Finds (λ typed. typed.now) (spec.typed (seen self.entry)) result }
    {
        let typed = self.get("ch").and_then(Value::as_str);
        typed.ok_or(Refusal::BadParameters)
    }

    /// What names are to contain that are looked for.
    pub fn query(self) -> Result<&'a str, Refusal>
        ensures { Finds (λ query. query.now) (spec.query (seen self.entry)) result }
    {
        let query = self.get("query").and_then(Value::as_str);
        query.ok_or(Refusal::BadParameters)
    }

    /// Whether quick fixes are wanted among what can be done. The context has to list problems; the kinds of
    /// actions may lack, and all are wanted then.
    pub fn wants_fixes(self) -> Result<bool, Refusal>
        ensures { Finds (λ wanted. wanted) (spec.wants_fixes (seen self.entry)) result }
    {
        let context = self.get("context").ok_or(Refusal::BadParameters)?;
        let problems = context.get("diagnostics").and_then(Value::as_array);
        if problems.is_none() {
            return Err(Refusal::BadParameters);
        }
        match context.get("only") {
            Some(kinds) if !kinds.is_null() => match kinds.as_array() {
                Some(kinds) => Ok(any_covers(kinds.as_slice())),
                None => Err(Refusal::BadParameters),
            },
            _ => Ok(true),
        }
    }

    /// Whether the label is wanted among the references.
    pub fn includes_label(self) -> bool
        ensures { result ≡ spec.includes_label (seen self.entry) }
    {
        let context = self.get("context");
        let included = context.and_then(|context| context.get("includeDeclaration"));
        included.and_then(Value::as_bool).unwrap_or(false)
    }

    /// What the client says that it can do about a subject.
    fn capabilities(self, subject: &str) -> Option<&'a Value>
        ensures { option_map (λ v. view v.now) result ≡ spec.capabilities subject.now (seen self.entry) }
    {
        self.get("capabilities")?.get(subject)
    }

    /// What the client says of a kind of request about documents.
    fn feature(self, name: &str) -> Option<&'a Value>
        ensures { option_map (λ v. view v.now) result ≡ spec.feature name.now (seen self.entry) }
    {
        self.capabilities("textDocument")?.get(name)
    }

    /// Whether the client takes an outline as a tree.
    pub fn takes_trees(self) -> bool
        ensures { result ≡ spec.takes_trees (seen self.entry) }
    {
        let symbols = self.feature("documentSymbol");
        let taken = symbols.and_then(|symbols| symbols.get("hierarchicalDocumentSymbolSupport"));
        taken.and_then(Value::as_bool).unwrap_or(false)
    }

    /// Whether the client asks whether a name can be renamed before it renames it.
    pub fn prepares_renames(self) -> bool
        ensures { result ≡ spec.prepares_renames (seen self.entry) }
    {
        let rename = self.feature("rename");
        let prepared = rename.and_then(|rename| rename.get("prepareSupport"));
        prepared.and_then(Value::as_bool).unwrap_or(false)
    }

    /// Whether the client takes what can be done about a stretch as edits.
    pub fn takes_actions(self) -> bool
        ensures { result ≡ spec.takes_actions (seen self.entry) }
    {
        let actions = self.feature("codeAction");
        let literals = actions.and_then(|actions| actions.get("codeActionLiteralSupport"));
        literals.is_some_and(Value::is_object)
    }

    /// Whether the client asks for errors and warnings by itself.
    pub fn asks_diagnostics(self) -> bool
        ensures { result ≡ spec.asks_diagnostics (seen self.entry) }
    {
        self.feature("diagnostic").is_some_and(Value::is_object)
    }

    /// What the client says of folding.
    fn folding(self) -> Option<&'a Value>
        ensures { option_map (λ v. view v.now) result ≡ spec.folding (seen self.entry) }
    {
        self.feature("foldingRange")
    }

    /// Whether the client folds whole lines alone.
    pub fn folds_lines(self) -> bool
        ensures { result ≡ spec.folds_lines (seen self.entry) }
    {
        let folding = self.folding();
        let only = folding.and_then(|folding| folding.get("lineFoldingOnly"));
        only.and_then(Value::as_bool).unwrap_or(false)
    }

    /// How many stretches to fold the client wants of a document at most, if it says so.
    pub fn range_limit(self) -> Option<usize>
        ensures { result ≡ spec.range_limit (seen self.entry) }
    {
        count(self.folding()?.get("rangeLimit")?)
    }

    /// The first of the encodings that the client offers which the server has: UTF-16 where there is none.
    pub fn encoding(self) -> Encoding
        ensures { result ≡ spec.encoding (seen self.entry) }
    {
        let general = self.capabilities("general");
        let offered = general.and_then(|general| general.get("positionEncodings"));
        match offered.and_then(Value::as_array) {
            Some(names) => first_encoding(names.as_slice()).unwrap_or(Encoding::Utf16),
            None => Encoding::Utf16,
        }
    }
}

/// The first encoding that one of the names names.
fn first_encoding(names: &[Value]) -> Option<Encoding>
    ensures { result ≡ spec.first_encoding (items_view names.now) }
{
    for name in names {
        if let Some(encoding) = name.as_str().and_then(encoding_of) {
            return Some(encoding);
        }
    }
    None
}

/// Whether one of some kinds of actions covers quick fixes.
fn any_covers(kinds: &[Value]) -> bool
    ensures { result ≡ spec.any_covers (items_view kinds.now) }
{
    for kind in kinds {
        if kind.as_str().is_some_and(covers_fixes) {
            return true;
        }
    }
    false
}

/// Whether a kind of actions covers quick fixes. The empty kind covers all.
fn covers_fixes(kind: &str) -> bool
    ensures { result ≡ spec.covers_fixes kind.now }
{
    kind == "quickfix" || kind.is_empty()
}

/// The encoding with a name.
fn encoding_of(name: &str) -> Option<Encoding>
    ensures { result ≡ spec.encoding_named name.now }
{
    match name {
        "utf-8" => Some(Encoding::Utf8),
        "utf-16" => Some(Encoding::Utf16),
        _ => None,
    }
}

/// A position: a line and a column.
pub fn position_of(value: &Value) -> Option<Position>
    ensures { result ≡ spec.position (view value.now) }
{
    Some(Position {
        line: count_of(value, "line")?,
        column: count_of(value, "character")?,
    })
}

/// A member that is a whole number from 0 on.
fn count_of(value: &Value, name: &str) -> Option<usize>
    ensures { result ≡ spec.count_in name.now (view value.now) }
{
    count(value.get(name)?)
}

/// A whole number from 0 on, which may be written with a fraction of zero.
fn count(value: &Value) -> Option<usize>
    ensures { result ≡ spec.count (view value.now) }
{
    let number = value.as_number()?;
    if number.is_f64() {
        return Some(whole_count(number.as_f64()?)? as usize);
    }
    Some(number.as_u64()? as usize)
}

/// The whole number from 0 on that a float equals, up to 32 bits.
fn whole_count(number: f64) -> Option<u32>
    ensures { result ≡ spec.whole_count number }
{
    let whole = saturating_f64_to_u32(number);
    if number == nearest_u64_to_f64(u64::from(whole)) {
        Some(whole)
    } else {
        None
    }
}

/// A whole number, which may be written with a fraction of zero.
fn integer(value: &Value) -> Option<i64>
    ensures { result ≡ option_and_then spec.integer_of (as_number (view value.now)) }
{
    let number = value.as_number()?;
    if number.is_f64() {
        return Some(i64::from(whole_number(number.as_f64()?)?));
    }
    number.as_i64()
}

/// The whole number that a float equals, up to 32 bits.
fn whole_number(number: f64) -> Option<i32>
    ensures { result ≡ spec.whole_number number }
{
    let whole = saturating_f64_to_i32(number);
    if number == nearest_i64_to_f64(i64::from(whole)) {
        Some(whole)
    } else {
        None
    }
}

impl Stretch {
    /// The stretch that a value is.
    pub fn of(value: &Value) -> Option<Stretch>
        ensures { result ≡ spec.stretch (view value.now) }
    {
        Some(Stretch {
            start: position_of(value.get("start")?)?,
            end: position_of(value.get("end")?)?,
        })
    }
}

impl<'a> Change<'a> {
    /// The change that a value is.
    pub fn of(value: &'a Value) -> Option<Change<'a>>
        ensures { option_map spec.edit_in result ≡ spec.edit (view value.now) }
    {
        let text = value.get("text")?.as_str()?;
        match value.get("range") {
            Some(range) if !range.is_null() => Some(Change::Ranged(Stretch::of(range)?, text)),
            _ => Some(Change::Whole(text)),
        }
    }
}
