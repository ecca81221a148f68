//! The documents that are open.
ghost use Rattle.std.specs.Prelude.{◌≡◌, ℕ, false, option_map, IfOk, List, MatchResult, None, Some, is_some, position};
ghost use Rattle.std.specs.String.{string_bytes};
ghost use Rattle.serde_json.specs.View.{items_view, view};
ghost use Rattle.typst_protocol.specs.Addresses.{is_same};
ghost use Rattle.typst_protocol.specs.Parameters.{edit, edit_in};
ghost use Rattle.typst_server.specs.Sent.{IsKept, KeepsSent, MayBeKept, MayDrop, last_of, sent_of};
ghost use Rattle.typst_server.specs.Documents as spec;
ghost use Rattle.typst_server.specs.Documents.{IsMissing, IsUnknown, Keeps, KeepsOthers, Knows, after, found, is_named, known, next};
ghost use Rattle.typst_server.specs.Left.{AreSame, AreUnknown};

use crate::tracked::{Fresh, Tracked};
use serde_json::Value;
use std::alloc::{AllocError, Global};
use std::mem;
use typst_document::Document;
use typst_positions::Encoding;
use typst_protocol::{Change, Refusal, is_same};

/// What is known of an open document.
#[derive(Drop)]
pub enum Held {
    /// Its text, and how its tokens stand to those that were sent last.
    Known(Tracked),
    /// Nothing, since a change of it was refused.
    Lost,
}

/// An open document.
#[derive(Drop)]
pub struct Entry {
    /// Its address, as the client wrote it last.
    uri: String,
    /// What is known of it.
    held: Held,
}

/// The open documents. Addresses are compared decoded: to find one takes no memory, and the time of a
/// comparison with each, of which there are few.
#[derive(Drop)]
pub struct Documents {
    alloc: Global,
    entries: Vec<Entry>,
}

impl Documents {
    /// None is open.
    pub fn new(alloc: Global) -> Documents
        ensures { (uri : List ℕ) → found uri result ≡ None }
    {
        Documents {
            alloc,
            entries: Vec::new(alloc),
        }
    }

    /// All that are open.
    pub fn entries(&self) -> &[Entry]
        ensures { result.now ≡ self.now.entries.items }
    {
        self.entries.as_slice()
    }

    /// The document with an address, if it is open.
    fn entry_of(&self, uri: &str) -> Option<&Entry>
        ensures { option_map (λ entry. entry.now) result ≡ spec.entry_of uri.now self.now }
    {
        self.entries
            .iter()
            .find(|entry| is_same(uri, entry.uri.as_str()))
    }

    /// Where it stands among those that are open.
    fn place_of(&self, uri: &str) -> Option<usize>
        ensures { result ≡ position (is_named uri.now) self.now.entries.items }
    {
        self.entries
            .iter()
            .position(|entry| is_same(uri, entry.uri.as_str()))
    }

    /// The document with an address. It refuses where there is none, and where its text isn't known.
    pub fn get(&self, uri: &str) -> Result<&Tracked, Refusal>
        ensures known { MatchResult result (λ document. found uri.now self.now ≡ Some (Some document.now.document)) (IsMissing (found uri.now self.now)) }
        ensures sent { IfOk result (λ document. sent_of uri.now self.now ≡ document.now.sent) }
    {
        let Some(entry) = self.entry_of(uri) else {
            return Err(Refusal::BadParameters);
        };
        match &entry.held {
            Held::Known(document) => Ok(document),
            Held::Lost => Err(Refusal::LostDocument),
        }
    }

    /// Whether the text of a document is known.
    pub fn knows(&self, uri: &str) -> bool
        ensures { result ≡ spec.is_known (found uri.now self.now) }
    {
        match self.entry_of(uri) {
            Some(entry) => entry.is_known(),
            None => false,
        }
    }

    /// Whether the text of any document is known.
    pub fn knows_any(&self) -> bool
        ensures { result ≡ false → AreUnknown self.now }
    {
        for entry in &self.entries {
            if entry.is_known() {
                return true;
            }
        }
        false
    }

    /// The documents whose text is known, with their addresses.
    pub fn all_known(&self) -> Result<Vec<(&str, &Document)>, AllocError> {
        let mut all = Vec::new(self.alloc);
        for entry in &self.entries {
            if let Held::Known(document) = &entry.held {
                all.push((entry.uri.as_str(), document.document()))?;
            }
        }
        Ok(all)
    }

    /// Opens a document with a text, or gives it that text where it is open already. Where memory is
    /// refused its text isn't known, or it isn't open.
    pub fn open(&mut self, uri: &str, text: &str, encoding: Encoding)
        ensures text { Knows encoding (found uri.now self.new) (Some text.now) }
        ensures others { KeepsOthers uri.now self.old self.new }
        ensures sent { KeepsSent self.old self.new }
    {
        self.lose(uri);
        if self.enter(uri).is_ok() {
            self.give(uri, Change::Whole(text), encoding);
        }
    }

    /// Has a document open, under its address as the client writes it. Of one that wasn't open nothing is
    /// known.
    fn enter(&mut self, uri: &str) -> Result<(), AllocError>
        ensures unknown { IsUnknown (found uri.now self.old) → IsUnknown (found uri.now self.new) }
        ensures others { KeepsOthers uri.now self.old self.new }
        ensures sent { KeepsSent self.old self.new }
    {
        if self.entry_of(uri).is_some() {
            return self.rename(uri);
        }
        let name = String::from_str(self.alloc, uri)?;
        self.entries.push(Entry {
            uri: name,
            held: Held::Lost,
        })?;
        Ok(())
    }

    /// Has a document, if it is open, under its address as the client writes it.
    fn rename(&mut self, uri: &str) -> Result<(), AllocError>
        ensures known { AreSame self.old self.new }
        ensures sent { (other : List ℕ) → sent_of other self.new ≡ sent_of other self.old }
    {
        let Some(place) = self.place_of(uri) else {
            return Ok(());
        };
        if self.entries[place].uri.as_str() == uri {
            return Ok(());
        }
        let name = String::from_str(self.alloc, uri)?;
        self.entries[place].uri = name;
        Ok(())
    }

    /// Makes the changes of a document, each of what the one before it left. It is lost from a change on
    /// that is refused or is none, up to the next one that gives the whole text.
    pub fn change(&mut self, uri: &str, changes: &[Value], encoding: Encoding)
        ensures text { Keeps encoding (λ text. after encoding text (items_view changes.now)) (found uri.now self.old) (found uri.now self.new) }
        ensures others { KeepsOthers uri.now self.old self.new }
        ensures sent { KeepsSent self.old self.new }
    {
        if self.rename(uri).is_ok() {
            self.make_all(uri, changes, encoding);
        } else {
            self.lose(uri);
        }
    }

    /// Makes changes of a document.
    fn make_all(&mut self, uri: &str, changes: &[Value], encoding: Encoding)
        ensures text { Keeps encoding (λ text. after encoding text (items_view changes.now)) (found uri.now self.old) (found uri.now self.new) }
        ensures others { KeepsOthers uri.now self.old self.new }
        ensures sent { KeepsSent self.old self.new }
    {
        for value in changes {
            self.make(uri, value, encoding);
        }
    }

    /// Makes a change of a document, which is lost where that is none.
    fn make(&mut self, uri: &str, value: &Value, encoding: Encoding)
        ensures text { Keeps encoding (λ text. next encoding text (edit (view value.now))) (found uri.now self.old) (found uri.now self.new) }
        ensures others { KeepsOthers uri.now self.old self.new }
        ensures sent { KeepsSent self.old self.new }
    {
        let Some(change) = Change::of(value) else {
            return self.lose(uri);
        };
        self.give(uri, change, encoding);
    }

    /// Makes a change of a document, if it is open.
    fn give(&mut self, uri: &str, change: Change<'_>, encoding: Encoding)
        ensures text { Keeps encoding (λ text. next encoding text (Some (edit_in change.entry))) (found uri.now self.old) (found uri.now self.new) }
        ensures others { KeepsOthers uri.now self.old self.new }
        ensures sent { KeepsSent self.old self.new }
    {
        let alloc = self.alloc;
        if let Some(place) = self.place_of(uri) {
            self.entries[place].change(alloc, change, encoding);
        }
    }

    /// Tokens of a document were sent. Those of one that is known are kept as the last ones.
    pub fn keep(&mut self, uri: &str, fresh: Fresh)
        requires { MayBeKept (found uri.now self.old) fresh }
        ensures known { AreSame self.old self.new }
        ensures sent { IsKept (found uri.now self.old) (string_bytes fresh.name) (sent_of uri.now self.new) }
        ensures others { (other : List ℕ) → is_same uri.now other ≡ false → sent_of other self.new ≡ sent_of other self.old }
    {
        if let Some(place) = self.place_of(uri) {
            self.entries[place].keep(fresh);
        }
    }

    /// Has the tokens of a document at hand, if its text is known.
    pub fn renew_tokens(&mut self, uri: &str)
        ensures { self.new ≡ self.old }
    {
        let alloc = self.alloc;
        if let Some(place) = self.place_of(uri) {
            self.entries[place].renew_tokens(alloc);
        }
    }

    /// The text of a document isn't known any more.
    pub fn lose(&mut self, uri: &str)
        ensures lost { IsUnknown (found uri.now self.new) }
        ensures others { KeepsOthers uri.now self.old self.new }
        ensures sent { KeepsSent self.old self.new }
    {
        if let Some(place) = self.place_of(uri) {
            self.entries[place].lose();
        }
    }

    /// The text of no document is known any more.
    pub fn lose_all(&mut self)
        ensures lost { AreUnknown self.new }
        ensures sent { KeepsSent self.old self.new }
    {
        for entry in self.entries.iter_mut() {
            entry.lose();
        }
    }

    /// Closes a document, and says whether it was open.
    pub fn close(&mut self, uri: &str) -> bool
        ensures closed { found uri.now self.new ≡ None }
        ensures was_open { result ≡ is_some (spec.entry_of uri.now self.old) }
        ensures others { KeepsOthers uri.now self.old self.new }
        ensures sent { KeepsSent self.old self.new }
    {
        let was_open = self.entry_of(uri).is_some();
        self.entries
            .retain(|entry| !is_same(uri, entry.uri.as_str()));
        was_open
    }
}

impl Entry {
    /// The address, as the client wrote it last.
    pub fn uri(&self) -> &str
        ensures { result.now ≡ string_bytes self.now.uri }
    {
        self.uri.as_str()
    }

    /// Whether the text is known.
    pub fn is_known(&self) -> bool
        ensures { result ≡ spec.is_known (Some (known self.now.held)) }
    {
        match self.held {
            Held::Known(_) => true,
            Held::Lost => false,
        }
    }

    /// The text isn't known any more.
    fn lose(&mut self)
        ensures uri { self.new.uri ≡ self.old.uri }
        ensures lost { self.new.held ≡ Held.Lost }
    {
        self.held = Held::Lost;
    }

    /// Makes a change.
    fn change(&mut self, alloc: Global, change: Change<'_>, encoding: Encoding)
        ensures uri { self.new.uri ≡ self.old.uri }
        ensures known { Keeps encoding (λ text. next encoding text (Some (edit_in change.entry))) (Some (known self.old.held)) (Some (known self.new.held)) }
        ensures sent { MayDrop (last_of self.old.held) (last_of self.new.held) }
    {
        let before = mem::replace(&mut self.held, Held::Lost);
        self.held = before.changed(alloc, change, encoding);
    }

    /// Has the tokens at hand, if the text is known.
    fn renew_tokens(&mut self, alloc: Global)
        ensures { self.new ≡ self.old }
    {
        if let Held::Known(document) = &mut self.held {
            document.renew(alloc);
        }
    }

    /// Its tokens were sent.
    fn keep(&mut self, fresh: Fresh)
        requires { MayBeKept (Some (known self.old.held)) fresh }
        ensures uri { self.new.uri ≡ self.old.uri }
        ensures known { known self.new.held ≡ known self.old.held }
        ensures sent { IsKept (Some (known self.old.held)) (string_bytes fresh.name) (last_of self.new.held) }
    {
        if let Held::Known(document) = &mut self.held {
            document.keep(fresh);
        }
    }
}

impl Held {
    /// What is known after a change: nothing where it is refused, or changes a text that isn't known.
    fn changed(self, alloc: Global, change: Change<'_>, encoding: Encoding) -> Held
        ensures known { Keeps encoding (λ text. next encoding text (Some (edit_in change.entry))) (Some (known self)) (Some (known result)) }
        ensures sent { MayDrop (last_of self) (last_of result) }
    {
        match self.after(alloc, change, encoding) {
            Ok(document) => Held::Known(document),
            Err(_) => Held::Lost,
        }
    }

    /// The document after a change, with what is kept of the tokens that were sent last.
    fn after(
        self,
        alloc: Global,
        change: Change<'_>,
        encoding: Encoding,
    ) -> Result<Tracked, Refusal>
        ensures known { IfOk result (λ kept. Keeps encoding (λ text. next encoding text (Some (edit_in change.entry))) (Some (known self)) (Some (Some kept.document))) }
        ensures sent { IfOk result (λ kept. kept.sent ≡ last_of self) }
    {
        match self {
            Held::Known(document) => Ok(document.changed(alloc, change)?),
            Held::Lost => match change {
                Change::Whole(text) => {
                    let document = Document::new(alloc, text, encoding)?;
                    Ok(Tracked::new(document))
                }
                Change::Ranged(_, _) => Err(Refusal::LostDocument),
            },
        }
    }
}
