//! What clients send.

ghost use Rattle.std.specs.Prelude.{◌≡◌, MatchResult, Some, option_map};
ghost use Rattle.std.specs.Str.{IsUtf8};
ghost use Rattle.serde_json.specs.Read.{read as read_text};
ghost use Rattle.serde_json.specs.View.{view};
ghost use Rattle.typst_protocol.specs.Messages as spec;
ghost use Rattle.typst_protocol.specs.Messages.{IsMessage, IsUnread, IsUnreadBody};

use crate::method::Event;
use crate::params::Params;
use crate::refusal::Unread;
use serde_json::Value;
use std::alloc::{AllocError, Global};
use std::marker::Model;

/// The identifier of a request, as JSON text: a string or a whole number.
#[derive(Debug, Drop)]
pub struct Id {
    text: String,
}

impl Model for Id {
    ghost use Rattle.std.specs.Prelude.{ℕ, List};
    ghost use Rattle.std.specs.String.{string_bytes};

    ghost Value = { List ℕ };

    ghost view = { λ a. string_bytes a.text };
}

impl Id {
    ghost use Rattle.std.specs.Prelude.{◌≡◌, MatchOption, MatchResult, false, true};
    ghost use Rattle.serde_json.specs.View.{view};
    ghost use Rattle.serde_json.specs.Written.{compact_text};
    ghost use Rattle.typst_protocol.specs.Messages.{is_id};

    /// The identifier that a value is, none where it is no string and no whole number. Only an identifier
    /// takes memory.
    pub fn of(alloc: Global, value: &Value) -> Result<Option<Id>, AllocError>
        ensures { MatchResult result
            (λ made. MatchOption made (is_id (view value.now) ≡ false) (λ id. (is_id (view value.now) ≡ true) × (id ≡ compact_text (view value.now))))
            (λ _. is_id (view value.now) ≡ true) }
    {
        if !(value.is_string() || value.is_i64() || value.is_u64()) {
            return Ok(None);
        }
        let text = value.to_string(alloc)?;
        Ok(Some(Id { text }))
    }

    /// The identifier as JSON.
    pub fn as_str(&self) -> &str
        ensures { result.now ≡ self.now }
    {
        self.text.as_str()
    }
}

/// What has to be answered.
#[derive(Drop)]
pub struct Request<'a> {
    /// Which request it is.
    pub id: Id,
    /// What is asked.
    pub method: &'a str,
    /// Of what it is asked.
    pub params: Params<'a>,
}

/// A notification: what is said and not answered.
#[derive(Drop)]
pub struct Notification<'a> {
    /// What it says.
    pub method: &'a str,
    /// What it is about.
    pub params: Params<'a>,
}

/// What a client sends.
#[derive(Drop)]
pub enum Message<'a> {
    /// A request.
    Request(Request<'a>),
    /// A notification.
    Notification(Notification<'a>),
    /// What the client answers to a request of the server's.
    Response,
}

/// The value that a body is.
pub fn read_json(alloc: Global, body: &[u8]) -> Result<Value, Unread>
    ensures { MatchResult result (λ value. IsUtf8 body.now × (read_text body.now ≡ Some (view value))) (IsUnreadBody body.now) }
{
    match Value::from_slice(alloc, body) {
        Ok(value) => Ok(value),
        Err(error) if error.is_memory() => Err(Unread::OutOfMemory),
        Err(_) => Err(Unread::NotJson),
    }
}

impl<'a> Message<'a> {
    /// The message that a value is. Only a request takes memory, for its identifier.
    pub fn of(alloc: Global, value: &'a Value) -> Result<Message<'a>, Unread>
        ensures { MatchResult result (IsMessage (view value.now)) (IsUnread (view value.now)) }
    {
        if !is_versioned(value) {
            return Err(Unread::NotAMessage);
        }
        let Some(method) = value.get("method") else {
            return if is_response(value) {
                Ok(Message::Response)
            } else {
                Err(Unread::NotAMessage)
            };
        };
        let method = method.as_str().ok_or(Unread::NotAMessage)?;
        let params = Params::of(value);
        let Some(id) = value.get("id") else {
            return Ok(Message::Notification(Notification { method, params }));
        };
        match Id::of(alloc, id)? {
            Some(id) => Ok(Message::Request(Request { id, method, params })),
            None => Err(Unread::NotAMessage),
        }
    }
}

/// Whether a value names version 2.0 of the language of messages.
fn is_versioned(value: &Value) -> bool
    ensures { result ≡ spec.is_versioned (view value.now) }
{
    match value.get("jsonrpc").and_then(Value::as_str) {
        Some(version) => version == "2.0",
        None => false,
    }
}

/// Whether a value without a method is a response.
fn is_response(value: &Value) -> bool
    ensures { result ≡ spec.is_response (view value.now) }
{
    value.get("id").is_some() && (value.get("result").is_some() || value.get("error").is_some())
}

/// The address of the document whose text a value may have been meant to give or change, as it names that
/// document and has the method of an opening or a change, or none. It is to be asked of what is no message.
pub fn meant(value: &Value) -> Option<&str>
    ensures { option_map (λ uri. uri.now) result ≡ spec.meant (view value.now) }
{
    let method = value.get("method").and_then(Value::as_str);
    if may_give_text(method) {
        Params::of(value).uri().ok()
    } else {
        None
    }
}

/// Whether a method, if there is one, is that of an opening or a change.
fn may_give_text(method: Option<&str>) -> bool
    ensures { result ≡ spec.may_give_text (option_map (λ name. name.now) method.entry) }
{
    match method {
        Some(method) => matches!(Event::of(method), Some(Event::Opened | Event::Changed)),
        None => true,
    }
}
