//! An open document with its tokens, from one time that they are asked for to the next.
ghost use Rattle.std.specs.Prelude.{◌≡◌, None, IfOk, Some, length, option_map, if◌then◌else◌};
ghost use Rattle.std.specs.Str.{bytes_eq};
ghost use Rattle.std.specs.String.{string_bytes};
ghost use Rattle.typst_document.specs.UnicodeTables.{unicode_classes};
ghost use Rattle.typst_document.specs.Document as documents;
ghost use Rattle.typst_document.specs.Headline.{Headline};
ghost use Rattle.typst_protocol.specs.Parameters.{edit_in};
ghost use Rattle.typst_server.specs.Tracked as spec;
ghost use Rattle.typst_server.specs.Tracked.{IsCounted, TellsSince, if_named};

use std::alloc::Global;
use std::marker::Model;
use std::ops::Range;
use std::snapshot::Snapshot;
use typst_document::Document;
use typst_protocol::{Change, Refusal};
use typst_styles::{
    TokenList, read_by_both, renewed_tokens, semantic_tokens, token_window, tokens_outside,
};

/// An open document, and how its tokens stand to those that were sent last. All are kept from the time on that they
/// are asked for, up to a change of the whole text; those that edits have changed are made when they are asked for
/// again. So a change makes none.
#[derive(Drop)]
pub struct Tracked {
    document: Document,
    kept: Option<Kept>,
    sent: Option<Last>,
}

/// All tokens of a document as it was, and what edits have read again since.
#[derive(Drop)]
struct Kept {
    tokens: TokenList,
    /// How many bytes its text had.
    was_len: usize,
    /// The bytes of the present text that were read again; none where it wasn't edited.
    read: Option<Range<usize>>,
}

/// The tokens that were sent last: their name, and what they were of, which takes no memory.
#[derive(Drop)]
struct Last {
    name: String,
    of: Snapshot<Document>,
    /// How those that are kept stand to these.
    ends: Ends,
}

/// How tokens stand to those that were sent last.
#[derive(Clone, Copy)]
pub struct Ends {
    /// How many were sent.
    pub count: usize,
    /// How many of the first ones have the numbers with which they were sent.
    pub front: usize,
    /// How many of the last ones have.
    pub back: usize,
}

/// All tokens of a document, which are about to be sent.
#[derive(Drop)]
pub struct Fresh {
    pub name: String,
    pub count: usize,
}

impl Model for Tracked {
    ghost use Rattle.std.specs.Prelude.{option_map};
    ghost use Rattle.typst_server.specs.Tracked.{Followed, IsTracked, followed_code, sent_by};

    ghost Value = { Followed };

    ghost coded = { followed_code };

    ghost view = { λ a. record { document = a.document; sent = option_map sent_by a.sent } };

    ghost invariant = { λ a. IsTracked a.document a.kept a.sent };
}

impl Tracked {
    /// A document whose tokens aren't kept, and of which none were sent.
    pub fn new(document: Document) -> Tracked
        ensures document { result.document ≡ document }
        ensures sent { result.sent ≡ None }
    {
        Tracked {
            document,
            kept: None,
            sent: None,
        }
    }

    /// The document.
    pub fn document(&self) -> &Document
        ensures { result.now ≡ self.now.document }
    {
        &self.document
    }

    /// All its tokens, if they are kept and no edit came since.
    pub fn tokens(&self) -> Option<&TokenList>
        ensures { spec.AreTokens self.now.document (option_map (λ tokens. tokens.now) result) }
    {
        let kept = self.kept.as_ref()?;
        if kept.read.is_some() {
            return None;
        }
        Some(&kept.tokens)
    }

    /// How its tokens stand to those that were sent last, if that was under this name. After an edit nothing is known
    /// of that up to `renew`.
    pub fn since(&self, name: &str) -> Option<Ends>
        ensures { TellsSince self.now.document (if_named name.now self.now.sent) result }
    {
        match &self.sent {
            Some(last) => last.ends_as(name, is_edited(&self.kept)),
            None => None,
        }
    }

    /// Has its tokens at hand: makes all if none are kept, or else those that edits have changed. Where memory for
    /// that is refused none are kept.
    pub fn renew(&mut self, alloc: Global)
        ensures { self.new ≡ self.old }
    {
        let kept = self.kept.take();
        let carried = carried_over(alloc, &self.document, kept);
        let sent = self.sent.take();
        self.sent = last_after(sent, carried.front, carried.back);
        self.kept = carried.kept;
    }

    /// Its tokens were sent.
    pub fn keep(&mut self, fresh: Fresh)
        requires { IsCounted self.old.document fresh.count }
        ensures document { self.new.document ≡ self.old.document }
        ensures sent { self.new.sent ≡ Some (record { name = string_bytes fresh.name; of = self.old.document }) }
    {
        let Fresh { name, count } = fresh;
        let of = Snapshot::of(&self.document);
        let ends = Ends {
            count,
            front: count,
            back: count,
        };
        self.sent = Some(Last { name, of, ends });
        let kept = self.kept.take();
        self.kept = unedited(kept);
    }

    /// The document after a change. It is gone where the change is refused.
    pub fn changed(self, alloc: Global, change: Change<'_>) -> Result<Tracked, Refusal>
        ensures text { IfOk result (λ kept. kept.document.source.text ≡ documents.changed self.document.encoding self.document.source.text (edit_in change.entry)) }
        ensures encoding { IfOk result (λ kept. kept.document.encoding ≡ self.document.encoding) }
        ensures headline { IfOk result (λ kept. Headline unicode_classes kept.document.source) }
        ensures sent { IfOk result (λ kept. kept.sent ≡ self.sent) }
    {
        let Tracked {
            document,
            kept,
            sent,
        } = self;
        let _root = document.root();
        let was_len = document.text().len();
        let (document, read) = document.changed(alloc, change)?;
        let len = document.text().len();
        match kept_after(kept, read, was_len, len) {
            Some(kept) => Ok(Tracked {
                document,
                kept: Some(kept),
                sent,
            }),
            None => Ok(Tracked {
                document,
                kept: None,
                sent: last_after(sent, 0, 0),
            }),
        }
    }
}

impl Last {
    /// How the present tokens stand to these, if they were sent under this name. After edits nothing is known of
    /// that.
    fn ends_as(&self, name: &str, is_edited: bool) -> Option<Ends>
        ensures { result ≡ (if bytes_eq (string_bytes self.now.name) name.now then Some (spec.ends_if is_edited self.now.ends) else None) }
    {
        if self.name.as_str() != name {
            return None;
        }
        if is_edited {
            Some(self.ends.shortened(0, 0))
        } else {
            Some(self.ends)
        }
    }

    /// What was sent last, where so many of the first and of the last tokens still have their numbers.
    fn shortened(self, front: usize, back: usize) -> Last
        ensures { spec.IsShortened self result front back }
    {
        let Last { name, of, ends } = self;
        Last {
            name,
            of,
            ends: ends.shortened(front, back),
        }
    }
}

impl Ends {
    /// At most so many at both ends.
    fn shortened(self, front: usize, back: usize) -> Ends
        ensures { result ≡ spec.shortened front back self }
    {
        Ends {
            count: self.count,
            front: self.front.min(front),
            back: self.back.min(back),
        }
    }
}

/// What was sent last, where so many of the first and of the last tokens still have their numbers.
fn last_after(last: Option<Last>, front: usize, back: usize) -> Option<Last>
    ensures { spec.IsLastAfter last front back result }
{
    match last {
        Some(last) => Some(last.shortened(front, back)),
        None => None,
    }
}

impl Kept {
    /// Kept tokens after one more edit, which read these bytes again, of a text of `before` bytes that has
    /// `after` now.
    fn after(self, read: Range<usize>, before: usize, after: usize) -> Kept
        ensures { spec.StaysKept self read before after result }
    {
        let all = match &self.read {
            Some(first) => read_by_both(first, &read, before, after),
            None => read,
        };
        Kept {
            tokens: self.tokens,
            was_len: self.was_len,
            read: Some(all),
        }
    }
}

/// Whether an edit came since tokens were kept.
fn is_edited(kept: &Option<Kept>) -> bool
    ensures { result ≡ spec.is_edited kept.now }
{
    match kept {
        Some(kept) => kept.read.is_some(),
        None => false,
    }
}

/// Kept tokens, if no edit came since.
fn unedited(kept: Option<Kept>) -> Option<Kept>
    ensures { result ≡ (if spec.is_edited kept then None else kept) }
{
    if is_edited(&kept) { None } else { kept }
}

/// What is kept after a change of a text of `before` bytes that has `after` now: nothing where it isn't known what was
/// read again.
fn kept_after(
    kept: Option<Kept>,
    read: Option<Range<usize>>,
    before: usize,
    after: usize,
) -> Option<Kept>
    ensures { spec.MayStay kept read before after result }
{
    let kept = kept?;
    let read = read?;
    Some(kept.after(read, before, after))
}

/// What is at hand of a document's tokens.
#[derive(Drop)]
struct Carried {
    /// All of them, unless memory for that was refused.
    kept: Option<Kept>,
    /// How many of the first ones have the numbers that they had.
    front: usize,
    /// How many of the last ones have.
    back: usize,
}

/// All tokens of a document, and how many of them have the numbers that they had among those that are kept.
fn carried_over(alloc: Global, document: &Document, kept: Option<Kept>) -> Carried
    ensures { spec.IsCarriedOver document.now kept result }
{
    let Some(
        Kept {
            tokens,
            was_len,
            read,
        },
    ) = kept
    else {
        return Carried {
            kept: all_tokens(alloc, document),
            front: 0,
            back: 0,
        };
    };
    match read {
        Some(read) => after_edits(alloc, document, &read, tokens, was_len),
        None => unchanged(tokens, was_len),
    }
}

/// Where no edit came since they were kept, all have.
fn unchanged(tokens: TokenList, was_len: usize) -> Carried
    ensures kept { result.kept ≡ Some (record { tokens = tokens; was_len = was_len; read = None }) }
    ensures front { result.front ≡ length tokens }
    ensures back { result.back ≡ length tokens }
{
    let count = tokens.len();
    Carried {
        kept: Some(Kept {
            tokens,
            was_len,
            read: None,
        }),
        front: count,
        back: count,
    }
}

/// After edits that read these bytes again those outside of their window have, except the first one after it.
fn after_edits(
    alloc: Global,
    document: &Document,
    read: &Range<usize>,
    was: TokenList,
    was_len: usize,
) -> Carried
    ensures { spec.IsCarriedBy document.now read.now was was_len result }
{
    let root = document.root();
    let text = document.text();
    let window = token_window(root, text, read, document.boundary());
    let outside = tokens_outside(text, &window, &was, was_len);
    // The first token after the window is encoded relative to the one before it, which may be another one now.
    let back = outside.back.saturating_sub(1);
    Carried {
        kept: renewed(alloc, document, &window, was, was_len),
        front: outside.front,
        back,
    }
}

/// Where a window is this part of a text or more, all tokens are made.
const PART: usize = 8;

/// All tokens of a document after edits with this window, by those before them, if memory allows that.
fn renewed(
    alloc: Global,
    document: &Document,
    window: &Range<usize>,
    was: TokenList,
    was_len: usize,
) -> Option<Kept>
    ensures { spec.IsKeptBy document.now window.now was was_len result }
{
    let root = document.root();
    let text = document.text();
    if window.end.saturating_sub(window.start) >= text.len() / PART {
        return all_tokens(alloc, document);
    }
    let near = document.boundary();
    let tokens = renewed_tokens(alloc, root, text, window, near, was, was_len).ok()?;
    Some(Kept {
        tokens,
        was_len: text.len(),
        read: None,
    })
}

/// All tokens of a document, made now, if memory allows that.
fn all_tokens(alloc: Global, document: &Document) -> Option<Kept>
    ensures { spec.IsPresent document.now result }
{
    let text = document.text();
    let near = document.boundary();
    let tokens = semantic_tokens(alloc, document.root(), text, &document.whole(), near).ok()?;
    Some(Kept {
        tokens: TokenList::new(tokens),
        was_len: text.len(),
        read: None,
    })
}
