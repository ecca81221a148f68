//! The tokens of a document: what of it is shown how.
ghost use Rattle.std.specs.Prelude.{◌≡◌, ℕ, ◌-◌, ◌*◌, ◌^◌, ◌<◌, ◌≤◌, ◌++◌, List, [], Option, Some, drop, length, take, IfOk, OnOk, option_map};
ghost use Rattle.std.specs.String.{string_bytes};
ghost use Rattle.typst_document.specs.Document.{Opened};
ghost use Rattle.typst_document.specs.Places.{IsPlaceOf};
ghost use Rattle.typst_protocol.specs.Bodies.{IsJsonOf};
ghost use Rattle.typst_protocol.specs.Parameters as parameters;
ghost use Rattle.typst_server.specs.Sent.{AreAll, InStretch, IsSentOf, IsUpdateOf, Leads, TellsOf, TellsUnder, TellsWithin, WritesTold, made_by, put_into};
ghost use Rattle.typst_server.specs.Numbers.{IsAdded, all_shown, clipped, decoded, encoded, shown, shown_each};
ghost use Rattle.typst_server.specs.Tracked.{AreTokens, IsSince, Sent, TellsSince, named_last};

use crate::capabilities::{modifiers_of, number_of};
use crate::tracked::{Ends, Fresh, Tracked};
use std::alloc::{AllocError, Global};
use std::ops::Range;
use typst_document::{Document, Walk};
use typst_protocol::values::{Place, TokenChanges, TokenEdit, Tokens};
use typst_protocol::{Params, Refusal, json_of};
use typst_styles::{Token, TokenList, semantic_tokens};

/// The tokens of a document in the numbers of the protocol, five for each: lines and columns from the
/// token before it on, its length, its type and its modifiers. Only those in some bytes count.
fn numbers_of(
    alloc: Global,
    document: &Document,
    within: &Range<usize>,
) -> Result<Vec<u32>, AllocError>
    ensures numbers { IfOk result (λ numbers. numbers.items ≡ encoded 0 0 (all_shown document.now within.now)) }
    ensures decoded { length document.now.source.text < 2 ^ 32 → IfOk result (λ numbers. decoded 0 0 numbers.items ≡ all_shown document.now within.now) }
{
    let near = document.boundary();
    let tokens = semantic_tokens(alloc, document.root(), document.text(), within, near)?;
    let tokens = TokenList::new(tokens);
    encode(alloc, document, &tokens)
}

/// Some tokens of a document in these numbers.
fn encode(alloc: Global, document: &Document, tokens: &TokenList) -> Result<Vec<u32>, AllocError>
    ensures { IfOk result (λ numbers. numbers.items ≡ encoded 0 0 (shown_each document.now.encoding document.now.source.text tokens.now)) }
{
    Encoder::new(alloc, document).with(tokens, 0, tokens.len())
}

/// The numbers that some of the tokens of a document have among those of all.
fn encode_part(
    alloc: Global,
    document: &Document,
    tokens: &TokenList,
    start: usize,
    end: usize,
) -> Result<Vec<u32>, AllocError>
    requires ordered { start ≤ end }
    requires within { end ≤ length tokens.now }
    ensures { IfOk result (λ numbers. numbers.items ≡ take (5 * (end - start)) (drop (5 * start) (encoded 0 0 (shown_each document.now.encoding document.now.source.text tokens.now)))) }
{
    if start == 0 {
        return Encoder::new(alloc, document).with(tokens, 0, end);
    }
    let last = tokens.at(start - 1);
    Encoder::after(alloc, document, &last).with(tokens, start, end)
}

/// Tokens on their way into numbers.
#[derive(Drop)]
struct Encoder<'a> {
    numbers: Vec<u32>,
    walk: Walk<'a>,
    /// The line and the column of the last token.
    line: usize,
    column: usize,
}

impl<'a> Encoder<'a> {
    fn new(alloc: Global, document: &'a Document) -> Encoder<'a>
        ensures numbers { result.numbers.items ≡ [] }
        ensures walk { result.walk ≡ document.now }
        ensures start { (result.line ≡ 0) × (result.column ≡ 0) }
    {
        Encoder {
            numbers: Vec::new(alloc),
            walk: Walk::new(document),
            line: 0,
            column: 0,
        }
    }

    /// For those after a token.
    fn after(alloc: Global, document: &'a Document, token: &Token) -> Encoder<'a>
        ensures numbers { result.numbers.items ≡ [] }
        ensures walk { result.walk ≡ document.now }
        ensures place { IsPlaceOf document.now token.now.start (record { line = result.line; character = result.column }) }
    {
        let mut walk = Walk::new(document);
        let Place {
            line,
            character: column,
        } = walk.go_to(token.start);
        Encoder {
            numbers: Vec::new(alloc),
            walk,
            line,
            column,
        }
    }

    /// The numbers with those of some more tokens.
    fn with(self, tokens: &TokenList, start: usize, end: usize) -> Result<Vec<u32>, AllocError>
        requires { end ≤ length tokens.now }
        ensures { IfOk result (λ numbers. numbers.items ≡ self.entry.numbers.items ++ encoded self.entry.line self.entry.column (shown_each self.entry.walk.encoding self.entry.walk.source.text (take (end - start) (drop start tokens.now)))) }
    {
        let mut encoder = self;
        for index in start..end {
            encoder.add(&tokens.at(index))?;
        }
        Ok(encoder.numbers)
    }

    fn add(&mut self, token: &Token) -> Result<(), AllocError>
        ensures walk { self.new.walk ≡ self.old.walk }
        ensures added { OnOk result (IsAdded self.old self.new (shown self.old.walk.encoding self.old.walk.source.text token.now)) }
    {
        let Place {
            line,
            character: column,
        } = self.walk.go_to(token.start);
        let end = self.walk.go_to(token.end());
        let before = if line == self.line { self.column } else { 0 };
        let numbers = [
            number(line.saturating_sub(self.line)),
            number(column.saturating_sub(before)),
            number(end.character.saturating_sub(column)),
            number_of(token.style.kind),
            modifiers_of(token.style.is_declaration),
        ];
        self.numbers.extend_from_slice(&numbers)?;
        self.line = line;
        self.column = column;
        Ok(())
    }
}

/// A count as the protocol's numbers have it.
fn number(count: usize) -> u32
    ensures { result ≡ clipped count }
{
    u32::try_from(count).unwrap_or(u32::MAX)
}

/// All tokens of a document, which are at hand unless memory was refused, as they are sent under a number, and the
/// value that tells them to the client: as changes where `previous` names the ones that were sent last.
pub fn to_send(
    alloc: Global,
    tracked: &Tracked,
    number: u64,
    previous: Option<&str>,
) -> Result<(String, Fresh), Refusal>
    ensures { IfOk result (λ told. IsSentOf (named_last (option_map (λ name. name.now) previous.entry) tracked.now.sent) tracked.now.document number (string_bytes told.0) told.1) }
{
    let name = format!(in alloc; "{number}")?;
    let document = tracked.document();
    let _text = document.text();
    let Some(tokens) = tracked.tokens() else {
        return Err(Refusal::OutOfMemory);
    };
    let count = counted(tokens)?;
    let value = value_of(alloc, tracked, tokens, previous, name.as_str())?;
    Ok((value, Fresh { name, count }))
}

/// How many tokens at most have numbers that can be counted.
const MOST: usize = usize::MAX / 5;

/// How many tokens these are. It refuses where their numbers can't be counted.
fn counted(tokens: &TokenList) -> Result<usize, AllocError>
    ensures count { IfOk result (λ count. count ≡ length tokens.now) }
    ensures few { IfOk result (λ count. 5 * count ≤ 2 ^ 64 - 1) }
{
    let count = tokens.len();
    if MOST < count {
        return Err(AllocError);
    }
    Ok(count)
}

/// The value that tells all tokens of a document to the client.
fn value_of(
    alloc: Global,
    tracked: &Tracked,
    tokens: &TokenList,
    previous: Option<&str>,
    name: &str,
) -> Result<String, Refusal>
    requires { AreTokens tracked.now.document (Some tokens.now) }
    ensures { IfOk result (λ text. TellsUnder (named_last (option_map (λ name. name.now) previous.entry) tracked.now.sent) tracked.now.document name.now (string_bytes text)) }
{
    let update = update_of(alloc, tracked, tokens, previous)?;
    tell(alloc, &update, name)?.text(alloc)
}

/// The numbers that are sent of tokens.
#[derive(Drop)]
struct Update {
    /// Which of those that were sent last give way to them. Otherwise they are all.
    gap: Option<Gap>,
    numbers: Vec<u32>,
}

/// Some of the numbers that were sent last.
#[derive(Clone, Copy)]
struct Gap {
    start: usize,
    removed: usize,
}

/// The numbers that are sent of all tokens of a document: where `previous` names the ones that were sent last
/// those that make the present ones of these.
fn update_of(
    alloc: Global,
    tracked: &Tracked,
    tokens: &TokenList,
    previous: Option<&str>,
) -> Result<Update, AllocError>
    requires { AreTokens tracked.now.document (Some tokens.now) }
    ensures { IfOk result (λ update. IsUpdateOf (named_last (option_map (λ name. name.now) previous.entry) tracked.now.sent) tracked.now.document update) }
{
    let since = ends_since(tracked, previous);
    update_since(alloc, tracked.document(), tokens, since)
}

/// How the tokens of a document stand to those that were sent last, if `previous` names them.
fn ends_since(tracked: &Tracked, previous: Option<&str>) -> Option<Ends>
    ensures { TellsSince tracked.now.document (named_last (option_map (λ name. name.now) previous.entry) tracked.now.sent) result }
{
    match previous {
        Some(name) => tracked.since(name),
        None => None,
    }
}

/// The numbers that are sent of all tokens of a document, by how these stand to the ones that were sent last.
fn update_since(
    alloc: Global,
    document: &Document,
    tokens: &TokenList,
    since: Option<Ends>,
) -> Result<Update, AllocError>
    requires { AreTokens document.now (Some tokens.now) }
    ensures { IfOk result (λ update. (last : Option Sent) → TellsSince document.now last since → IsUpdateOf last document.now update) }
{
    match since {
        Some(ends) => changes_since(alloc, document, tokens, ends),
        None => {
            let numbers = encode(alloc, document, tokens)?;
            Ok(Update { gap: None, numbers })
        }
    }
}

/// The numbers of what stands between these ends.
fn changes_since(
    alloc: Global,
    document: &Document,
    tokens: &TokenList,
    ends: Ends,
) -> Result<Update, AllocError>
    requires { AreTokens document.now (Some tokens.now) }
    ensures { IfOk result (λ update. (last : Sent) → IsSince document.now last.of ends → IsUpdateOf (Some last) document.now update) }
{
    let len = tokens.len();
    let most = ends.count.min(len);
    let front = ends.front.min(most);
    let back = ends.back.min(most - front);
    let numbers = encode_part(alloc, document, tokens, front, len - back)?;
    let gap = Gap {
        start: front.saturating_mul(5),
        removed: (ends.count - front - back).saturating_mul(5),
    };
    Ok(Update {
        gap: Some(gap),
        numbers,
    })
}

/// What is sent for tokens.
#[derive(Drop)]
enum Told<'a> {
    /// All.
    All(Tokens<'a>),
    /// What has changed since others were sent.
    Changes(TokenChanges<'a>),
}

impl Told<'_> {
    /// The answer with it, as JSON.
    fn text(&self, alloc: Global) -> Result<String, Refusal>
        ensures { IfOk result (λ text. IsJsonOf (WritesTold self.now) (string_bytes text)) }
    {
        match self {
            Told::All(tokens) => json_of(alloc, tokens),
            Told::Changes(changes) => json_of(alloc, changes),
        }
    }
}

/// What is sent for tokens: the changes if the client has the last ones, otherwise all.
fn tell<'a>(alloc: Global, update: &'a Update, name: &'a str) -> Result<Told<'a>, AllocError>
    ensures { IfOk result (λ told. (last : Option Sent) (document : Opened) → IsUpdateOf last document update.now → TellsOf last document name.now told) }
{
    let numbers = update.numbers.as_slice();
    match update.gap {
        Some(gap) => {
            let changes = changes_by(alloc, gap, numbers, name)?;
            Ok(Told::Changes(changes))
        }
        None => Ok(Told::All(all_of(numbers, name))),
    }
}

/// All tokens, with the name of them.
fn all_of<'a>(numbers: &'a [u32], name: &'a str) -> Tokens<'a>
    ensures { AreAll result name.now numbers.now }
{
    Tokens {
        result_id: Some(name),
        data: numbers,
    }
}

/// What changes where numbers take the place of others.
fn changes_by<'a>(
    alloc: Global,
    gap: Gap,
    numbers: &'a [u32],
    name: &'a str,
) -> Result<TokenChanges<'a>, AllocError>
    ensures { IfOk result (λ changes. (old : List ℕ) → Leads old changes name.now (put_into gap numbers.now old)) }
{
    let edits = edits_by(alloc, gap, numbers)?;
    Ok(TokenChanges {
        result_id: name,
        edits,
    })
}

/// The edits that put numbers in the place of others: one, unless there are neither.
fn edits_by<'a>(
    alloc: Global,
    gap: Gap,
    numbers: &'a [u32],
) -> Result<Vec<TokenEdit<'a>>, AllocError>
    ensures { IfOk result (λ edits. (old : List ℕ) → made_by edits.items old ≡ put_into gap numbers.now old) }
{
    let mut edits = Vec::new(alloc);
    let changed = gap.removed.max(numbers.len());
    if changed == 0 {
        return Ok(edits);
    }
    edits.push(TokenEdit {
        start: gap.start,
        delete_count: gap.removed,
        data: numbers,
    })?;
    Ok(edits)
}

/// The tokens between two positions.
pub fn range(alloc: Global, document: &Document, params: Params<'_>) -> Result<String, Refusal>
    ensures { IfOk result (λ text. InStretch (parameters.seen params.entry) document.now (λ range. TellsWithin document.now range (string_bytes text))) }
{
    let stretch = params.stretch()?;
    let within = document.byte_of(stretch.start)..document.byte_of(stretch.end);
    let data = numbers_of(alloc, document, &within)?;
    json_of(
        alloc,
        &Tokens {
            result_id: None,
            data: data.as_slice(),
        },
    )
}
