//! Why a server refuses, and what it loses.

ghost use Rattle.std.specs.Prelude.{◌≡◌};
ghost use Rattle.typst_protocol.specs.Bodies.{code_of, error, message_of, nameless, text_of, warning};
ghost use Rattle.typst_protocol.specs.declared.refusal.Refusal.TheVariants as refusal;
ghost use Rattle.typst_protocol.specs.declared.refusal.Unread.TheVariants as unread;

use std::alloc::{AllocError, AllocFailed};

/// Why a request is refused.
#[derive(Debug, Clone, Copy, PartialEq, Eq)]
pub enum Refusal {
    /// It comes when it may not.
    OutOfPlace,
    /// There is no such method.
    UnknownMethod,
    /// The parameters aren't those of the method, or name a document that isn't open.
    BadParameters,
    /// Memory was refused.
    OutOfMemory,
    /// `initialize` hasn't come yet.
    NotInitialized,
    /// The text of the document isn't known any more.
    LostDocument,
    /// What stands at the position can't be renamed.
    NotRenamable,
    /// The new name of a name is no identifier.
    NotAnIdentifier,
    /// The new name of a label is none that a label can have.
    NotALabel,
}

impl Refusal {
    /// The error that tells of the refusal, as JSON: its code in the protocol, and a message.
    pub fn error(self) -> &'static str
        ensures { result.now ≡ error (code_of self) (message_of self) }
    {
        match self {
            Refusal::OutOfPlace => "{\"code\":-32600,\"message\":\"not at this time\"}",
            Refusal::UnknownMethod => "{\"code\":-32601,\"message\":\"unknown method\"}",
            Refusal::BadParameters => {
                "{\"code\":-32602,\"message\":\"the parameters do not fit\"}"
            }
            Refusal::OutOfMemory => "{\"code\":-32603,\"message\":\"out of memory\"}",
            Refusal::NotInitialized => "{\"code\":-32002,\"message\":\"not initialized\"}",
            Refusal::LostDocument => {
                "{\"code\":-32801,\"message\":\"the text is not known: open the document again, or send it whole\"}"
            }
            Refusal::NotRenamable => {
                "{\"code\":-32803,\"message\":\"nothing that this document defines stands there\"}"
            }
            Refusal::NotAnIdentifier => {
                "{\"code\":-32803,\"message\":\"the new name is not an identifier\"}"
            }
            Refusal::NotALabel => {
                "{\"code\":-32803,\"message\":\"the new name is not the name of a label\"}"
            }
        }
    }
}

impl From<AllocError> for Refusal {
    ghost from_gives = { λ _ made. made ≡ refusal.OutOfMemory };

    fn from(_error: AllocError) -> Refusal {
        Refusal::OutOfMemory
    }
}

impl<T: Drop> From<AllocFailed<T>> for Refusal {
    ghost from_gives = { λ _ made. made ≡ refusal.OutOfMemory };

    fn from(_error: AllocFailed<T>) -> Refusal {
        Refusal::OutOfMemory
    }
}

/// Why a body isn't taken for a message.
#[derive(Debug, Clone, Copy, PartialEq, Eq)]
pub enum Unread {
    /// It isn't JSON.
    NotJson,
    /// It is JSON, and no message of the protocol; or it is longer than bodies may be.
    NotAMessage,
    /// Memory was refused.
    OutOfMemory,
}

impl Unread {
    /// The response that tells of it. It has no identifier, and takes no memory.
    pub fn response(self) -> &'static str
        ensures { result.now ≡ nameless self }
    {
        match self {
            Unread::NotJson => {
                "{\"jsonrpc\":\"2.0\",\"id\":null,\"error\":{\"code\":-32700,\"message\":\"not JSON\"}}"
            }
            Unread::NotAMessage => {
                "{\"jsonrpc\":\"2.0\",\"id\":null,\"error\":{\"code\":-32600,\"message\":\"not a message\"}}"
            }
            Unread::OutOfMemory => {
                "{\"jsonrpc\":\"2.0\",\"id\":null,\"error\":{\"code\":-32603,\"message\":\"out of memory\"}}"
            }
        }
    }
}

impl From<AllocError> for Unread {
    ghost from_gives = { λ _ made. made ≡ unread.OutOfMemory };

    fn from(_error: AllocError) -> Unread {
        Unread::OutOfMemory
    }
}

/// What isn't known any more.
#[derive(Clone, Copy)]
pub enum Loss {
    /// The text of one document.
    Document,
    /// The texts of all documents.
    All,
}

impl Loss {
    /// The notification that warns the user of it. It takes no memory.
    pub fn warning(self) -> &'static str
        ensures { result.now ≡ warning (text_of self) }
    {
        match self {
            Loss::Document => {
                "{\"jsonrpc\":\"2.0\",\"method\":\"window/showMessage\",\"params\":{\"type\":2,\"message\":\"The text of a document is lost: close it and open it again.\"}}"
            }
            Loss::All => {
                "{\"jsonrpc\":\"2.0\",\"method\":\"window/showMessage\",\"params\":{\"type\":2,\"message\":\"A message could not be read: close the documents and open them again.\"}}"
            }
        }
    }
}
